// The trait of what takes the texts of a command.
ghost use Rattle.tm_driver.specs.Writing.{Text, Out, Note};

/// What takes texts for the output and for the notes, in the order in which they are to be written. It returns no
/// fault: after one nothing more is written.
pub trait TextTaker {
    /// What a text does to it.
    ghost took: { Self → Text → Self → Type 0 };

    /// Takes a text for the output.
    fn out(&mut self, text: &[u8])
        ensures { took self.old (Out text.now) self.new };

    /// Takes a text for the notes.
    fn note(&mut self, text: &[u8])
        ensures { took self.old (Note text.now) self.new };
}
