//! What the program says when it ends.
ghost use Rattle.std.specs.Prelude.{◌≡◌, ◌++◌, [], codes};
ghost use Rattle.nx_base.specs.Given.{given};
ghost use Rattle.nexrepo.specs.AtEnd.{hint_of, lines_of};
ghost use Rattle.nexrepo.specs.Statuses.{status_number, status_detail};

use crate::status::Status;

/// What a person at a terminal is told besides.
fn hint(status: &Status) -> &'static str
    ensures { result.now ≡ hint_of status.now }
{
    match status {
        Status::Usage => "usage: nexrepo FOLDER stdio\n",
        Status::BadConfig { key: _ } => {
            "docs/CONFIGURATION.md says what stands in config.properties\n"
        }
        Status::Ok
        | Status::ReadFault
        | Status::WriteFault
        | Status::InputTooLong
        | Status::DiskFault
        | Status::KeeperFault
        | Status::Cut
        | Status::DownloadFault
        | Status::NoMemory => "",
    }
}

/// What the program prints on standard error when it ends: these pieces, one behind another.
#[derive(Clone, Copy)]
pub struct Lines<'a> {
    pub prefix: &'a str,
    pub name: &'a str,
    pub blank: &'a str,
    pub detail: &'a str,
    pub line_end: &'a str,
    pub hint: &'a str,
}

/// What is printed behind the name, and a blank in front of it, if anything is.
fn detail<'a>(status: &'a Status) -> (&'a str, &'a str)
    ensures { result.0.now ++ result.1.now ≡ given (status_detail status.now) [] (λ detail. codes " " ++ detail) }
{
    match status.detail() {
        Some(detail) => (" ", detail),
        None => ("", ""),
    }
}

/// The lines that the program prints on standard error when it ends, and its number. Where standard error is a terminal, what a person
/// is told stands behind the line of the status.
pub fn lines_at_end<'a>(status: &'a Status, at_terminal: bool) -> (Lines<'a>, u8)
    ensures lines { (result.0.prefix.now ++ (result.0.name.now ++ ((result.0.blank.now ++ result.0.detail.now) ++ result.0.line_end.now))) ++ result.0.hint.now ≡ lines_of status.now at_terminal }
    ensures number { result.1 ≡ status_number status.now }
{
    let number = status.number();
    let (blank, detail) = detail(status);
    let (prefix, name, line_end) = if number == 0 {
        ("", "", "")
    } else {
        ("nexrepo: ", status.name(), "\n")
    };
    let hint = if at_terminal { hint(status) } else { "" };
    let lines = Lines {
        prefix,
        name,
        blank,
        detail,
        line_end,
        hint,
    };
    (lines, number)
}
