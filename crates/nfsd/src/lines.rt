//! The lines that tell a fault: its number and its name.
ghost use Rattle.std.specs.Prelude.{◌≡◌};
ghost use Rattle.nfsd.specs.Faults.{check_line as line_of_check, format_line as line_of_format};
ghost use Rattle.nfsd.specs.Faults.{open_line as line_of_open, session_line as line_of_session};

use session::SessionFault;
use store::{CheckFault, FormatFault, OpenFault};

/// Why an image isn't made.
pub fn format_line(fault: FormatFault) -> &'static str
    ensures { result.now ≡ line_of_format fault }
{
    match fault {
        FormatFault::Size => "nfsd: 1 Size\n",
        FormatFault::Inodes => "nfsd: 2 Inodes\n",
        FormatFault::Device => "nfsd: 3 Device\n",
        FormatFault::NoMemory(_) => "nfsd: 4 NoMemory\n",
    }
}

/// Why an image isn't opened.
pub fn open_line(fault: OpenFault) -> &'static str
    ensures { result.now ≡ line_of_open fault }
{
    match fault {
        OpenFault::Magic => "nfsd: 1 Magic\n",
        OpenFault::Version => "nfsd: 2 Version\n",
        OpenFault::Range => "nfsd: 3 Range\n",
        OpenFault::Log => "nfsd: 4 Log\n",
        OpenFault::Device => "nfsd: 5 Device\n",
        OpenFault::NoMemory(_) => "nfsd: 6 NoMemory\n",
    }
}

/// Why an image isn't good, or can't be checked.
pub fn check_line(fault: CheckFault) -> &'static str
    ensures { result.now ≡ line_of_check fault }
{
    match fault {
        CheckFault::Magic => "nfsd: 1 Magic\n",
        CheckFault::Version => "nfsd: 2 Version\n",
        CheckFault::Range => "nfsd: 3 Range\n",
        CheckFault::Log => "nfsd: 4 Log\n",
        CheckFault::Device => "nfsd: 5 Device\n",
        CheckFault::NoMemory(_) => "nfsd: 6 NoMemory\n",
        CheckFault::Shared => "nfsd: 7 Shared\n",
        CheckFault::Bitmap => "nfsd: 8 Bitmap\n",
        CheckFault::Tree(_) => "nfsd: 9 Tree\n",
    }
}

/// Why a stream isn't served to its end.
pub fn session_line(fault: SessionFault) -> &'static str
    ensures { result.now ≡ line_of_session fault }
{
    match fault {
        SessionFault::Record => "nfsd: 1 Record\n",
        SessionFault::Input => "nfsd: 2 Input\n",
        SessionFault::Output => "nfsd: 3 Output\n",
        SessionFault::NoMemory => "nfsd: 4 NoMemory\n",
        SessionFault::Truncated => "nfsd: 5 Truncated\n",
        SessionFault::Device => "nfsd: 6 Device\n",
    }
}
