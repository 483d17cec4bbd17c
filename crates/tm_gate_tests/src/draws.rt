// Numbers and shares that seats draw, split and join.
use std::test::Fail;
use tm_workers::Tickets;

#[test]
fn numbers_are_drawn_in_turn(rt: HostRuntime) -> Result<(), Fail> {
    let Ok((tickets, mut seat)) = Tickets::new(rt.alloc(), 2) else {
        panic!(rt; "no memory")
    };
    let drawn = [
        tickets.draw(&mut seat),
        tickets.draw(&mut seat),
        tickets.draw(&mut seat),
        tickets.draw(&mut seat),
    ];
    assert!(rt; drawn == [Some(0), Some(1), None, None]);
    assert!(rt; tickets.close(seat) == 2);
    Ok(())
}

#[test]
fn no_number_is_drawn_of_none(rt: HostRuntime) -> Result<(), Fail> {
    let Ok((tickets, mut seat)) = Tickets::new(rt.alloc(), 0) else {
        panic!(rt; "no memory")
    };
    assert!(rt; tickets.draw(&mut seat).is_none());
    assert!(rt; tickets.close(seat) == 0);
    Ok(())
}

#[test]
fn shares_are_split_and_joined(rt: HostRuntime) -> Result<(), Fail> {
    let Ok((tickets, mut seat)) = Tickets::new(rt.alloc(), 3) else {
        panic!(rt; "no memory")
    };
    let mut other = tickets.split(&mut seat, 32);
    assert!(rt; seat.shares() == 32 && other.shares() == 32);
    assert!(rt; tickets.draw(&mut other) == Some(0));
    assert!(rt; tickets.draw(&mut seat) == Some(1));
    tickets.join(&mut seat, other);
    assert!(rt; seat.shares() == 64);
    assert!(rt; tickets.close(seat) == 2);
    Ok(())
}
