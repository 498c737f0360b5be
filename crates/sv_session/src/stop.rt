// Why a command ends without having done its work.
ghost use Rattle.std.specs.Prelude.{◌≡◌, ◌≤◌, []};
ghost use Rattle.sv_session.specs.Stop.{refusal_of, journal_refusal_of, status_of, noted_line, Noted};

use arrayvec::ArrayString;
use itoa::Buffer;
use std::alloc::AllocError;
use sv_check::{CheckFault, Condition, LoadFault, MakeFault};
use sv_dev::{HostFault, Sink};
use sv_journal::{GatherFault, JournalFault};

// Room for the longest line.
const LINE_BYTES: usize = 64;

/// Why a command ended without having done its work.
#[derive(Clone, Copy, Debug, PartialEq, Eq)]
pub enum Stop {
    /// The words of the command line do not read.
    Words,
    /// The image is not sound: the condition that fails first, and where it fails.
    Refused { condition: Condition, place: u32 },
    DeviceFault,
    FileFault,
    WriteFault,
    NoMemory,
    /// The journal does not read, or is not legal: the first line where it fails.
    JournalRefused { line: u32 },
    NoSuchFile,
}

impl Stop {
    ghost use Rattle.sv_session.specs.Stop.{status_of};

    /// The exit status of the program.
    pub fn status(&self) -> u8
        ensures { result ≡ status_of self.now }
    {
        match self {
            Stop::Words => 1,
            Stop::Refused { .. } => 2,
            Stop::DeviceFault => 4,
            Stop::FileFault => 5,
            Stop::WriteFault => 6,
            Stop::NoMemory => 7,
            Stop::JournalRefused { .. } => 8,
            Stop::NoSuchFile => 9,
        }
    }
}

// The line that is noted, which needs no memory.
impl Stop {
    ghost use Rattle.sv_session.specs.Stop.{noted_line};

    fn line(&self) -> ArrayString<LINE_BYTES>
        ensures { result.bytes ≡ noted_line self.now }
    {
        let mut line = ArrayString::new();
        match *self {
            Stop::Words => line.push_str("svfs: words not understood\n"),
            Stop::Refused { condition, place } => push_refusal(&mut line, condition, place),
            Stop::DeviceFault => line.push_str("svfs: device fault\n"),
            Stop::FileFault => line.push_str("svfs: file fault\n"),
            Stop::WriteFault => line.push_str("svfs: write fault\n"),
            Stop::NoMemory => line.push_str("svfs: out of memory\n"),
            Stop::JournalRefused { line: at } => push_journal_refusal(&mut line, at),
            Stop::NoSuchFile => line.push_str("svfs: no such file\n"),
        }
        line
    }
}

// The line of a refused image: the condition's number and word, and the place.
fn push_refusal(line: &mut ArrayString<LINE_BYTES>, condition: Condition, place: u32)
    requires { line.old.bytes ≡ [] }
    ensures { line.new.bytes ≡ refusal_of condition place }
{
    let mut digits = Buffer::new();
    line.push_str("svfs: image refused: ");
    line.push_str(digits.format(condition.number()));
    line.push_str(" ");
    line.push_str(condition.word());
    line.push_str(" ");
    line.push_str(digits.format(place));
    line.push_str("\n");
}

// The line of a journal that is refused at that line.
fn push_journal_refusal(line: &mut ArrayString<LINE_BYTES>, at: u32)
    requires { line.old.bytes ≡ [] }
    ensures { line.new.bytes ≡ journal_refusal_of at }
{
    let mut digits = Buffer::new();
    line.push_str("svfs: journal line ");
    line.push_str(digits.format(at));
    line.push_str(" refused\n");
}

impl From<AllocError> for Stop {
    ghost use Rattle.std.specs.Prelude.{◌≡◌};
    ghost use Rattle.sv_session.specs.declared.stop.Stop.TheVariants.{NoMemory};

    ghost from_gives = { λ _ stop. stop ≡ NoMemory };

    fn from(_: AllocError) -> Self {
        Stop::NoMemory
    }
}

impl From<CheckFault> for Stop {
    ghost use Rattle.std.specs.Prelude.{◌≡◌};
    ghost use Rattle.sv_session.specs.Stop.{stop_of_check};

    ghost from_gives = { λ fault stop. stop ≡ stop_of_check fault };

    fn from(fault: CheckFault) -> Self {
        match fault {
            CheckFault::Refused { condition, place } => Stop::Refused { condition, place },
            CheckFault::Fault => Stop::DeviceFault,
            CheckFault::NoMemory => Stop::NoMemory,
        }
    }
}

impl From<HostFault> for Stop {
    ghost use Rattle.std.specs.Prelude.{◌≡◌};
    ghost use Rattle.sv_session.specs.Stop.{stop_of_host};

    ghost from_gives = { λ fault stop. stop ≡ stop_of_host fault };

    fn from(fault: HostFault) -> Self {
        match fault {
            HostFault::Failed => Stop::FileFault,
            HostFault::NoMemory => Stop::NoMemory,
        }
    }
}

impl From<LoadFault> for Stop {
    ghost use Rattle.std.specs.Prelude.{◌≡◌};
    ghost use Rattle.sv_session.specs.Stop.{stop_of_load};

    ghost from_gives = { λ fault stop. stop ≡ stop_of_load fault };

    fn from(fault: LoadFault) -> Self {
        match fault {
            LoadFault::Fault => Stop::DeviceFault,
            LoadFault::NoMemory => Stop::NoMemory,
        }
    }
}

impl From<MakeFault> for Stop {
    ghost use Rattle.std.specs.Prelude.{◌≡◌};
    ghost use Rattle.sv_session.specs.Stop.{stop_of_make};

    ghost from_gives = { λ fault stop. stop ≡ stop_of_make fault };

    fn from(fault: MakeFault) -> Self {
        match fault {
            MakeFault::Limits => Stop::Words,
            MakeFault::Fault => Stop::DeviceFault,
            MakeFault::NoMemory => Stop::NoMemory,
        }
    }
}

impl From<GatherFault> for Stop {
    ghost use Rattle.std.specs.Prelude.{◌≡◌};
    ghost use Rattle.sv_session.specs.Stop.{stop_of_gather};

    ghost from_gives = { λ fault stop. stop ≡ stop_of_gather fault };

    fn from(fault: GatherFault) -> Self {
        match fault {
            GatherFault::Fault => Stop::FileFault,
            GatherFault::NoMemory => Stop::NoMemory,
        }
    }
}

impl From<JournalFault> for Stop {
    ghost use Rattle.std.specs.Prelude.{◌≡◌};
    ghost use Rattle.sv_session.specs.Stop.{stop_of_journal};

    ghost from_gives = { λ fault stop. stop ≡ stop_of_journal fault };

    fn from(fault: JournalFault) -> Self {
        match fault {
            JournalFault::Line(line) => Stop::JournalRefused { line },
            JournalFault::NoMemory => Stop::NoMemory,
        }
    }
}

/// Notes the line of a stop, and answers its status. A failed write to `note` changes nothing.
pub fn tell<O: Sink>(stop: &Stop, note: &mut O) -> u8
    ensures status { result ≡ status_of stop.now }
    ensures noted { Noted (O.written note.old) (O.written note.new) (O.faults note.old) (O.faults note.new) (noted_line stop.now) }
{
    let _ = note.write(stop.line().as_bytes());
    stop.status()
}
