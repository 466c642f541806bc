ghost use Rattle.std.specs.Prelude.{◌≡◌};
ghost use Rattle.binast_run.specs.Status.{code, line_of};

// How the program ends where it gives no answer.
#[derive(Clone, Copy, Debug, PartialEq, Eq)]
pub(crate) enum Fault {
    BadWords,
    ReadFault,
    WriteFault,
    OutOfMemory,
    TooLarge,
}

impl Fault {
    pub(crate) fn code(self) -> u8
        ensures { result ≡ code self }
    {
        match self {
            Fault::BadWords => 2,
            Fault::ReadFault => 3,
            Fault::WriteFault => 4,
            Fault::OutOfMemory => 5,
            Fault::TooLarge => 6,
        }
    }

    // Its line in notes.
    pub(crate) fn line(self) -> &'static str
        ensures { result.now ≡ line_of self }
    {
        match self {
            Fault::BadWords => "words not understood\n",
            Fault::ReadFault => "reading failed\n",
            Fault::WriteFault => "writing failed\n",
            Fault::OutOfMemory => "out of memory\n",
            Fault::TooLarge => "input is larger than 8388608 bytes\n",
        }
    }
}
