// Which version of the library this is.
ghost use Rattle.std.specs.Prelude.{◌≡◌};

/// The version of the library, 0.3.0: 65,536 times the first number, 256 times the second, and the third.
#[unsafe(no_mangle)]
pub extern "C" fn tmchan_version() -> u32
    ensures { result ≡ 768 }
{
    0x000300
}
