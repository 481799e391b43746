// The answers to faults of reading.

ghost use Rattle.std.specs.Prelude.{◌≡◌, ◌≢◌};
ghost use Rattle.ev_status.specs.declared.status.Status.{Status};
ghost use Rattle.fredbox.specs.Faults.{image_status, input_status, script_status};

use ev_image::ImageFault;
use ev_probe::InputFault;
use ev_script::ScriptFault;
use ev_status::Status;

/// The answer where no image was read.
pub(crate) fn image_status(fault: ImageFault) -> Status
    ensures is { result ≡ image_status fault }
    ensures command { result ≢ Status.Usage }
{
    match fault {
        ImageFault::Read => Status::ReadFault,
        ImageFault::BadLine(line, cause) => Status::BadDocument(line, cause),
        ImageFault::NoMemory => Status::NoMemory,
    }
}

/// The answer where no script was read.
pub(crate) fn script_status(fault: ScriptFault) -> Status
    ensures is { result ≡ script_status fault }
    ensures command { result ≢ Status.Usage }
{
    match fault {
        ScriptFault::Read => Status::ReadFault,
        ScriptFault::BadLine(line, cause) => Status::BadDocument(line, cause),
        ScriptFault::NoMemory => Status::NoMemory,
    }
}

/// The answer where no probe line was read.
pub(crate) fn input_status(fault: InputFault) -> Status
    ensures is { result ≡ input_status fault }
    ensures command { result ≢ Status.Usage }
{
    match fault {
        InputFault::Read => Status::ReadFault,
        InputFault::BadLine(line, cause) => Status::BadDocument(line, cause),
        InputFault::NoMemory => Status::NoMemory,
    }
}
