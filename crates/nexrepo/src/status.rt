use repo_config::KeyText;

/// How a run ended.
#[derive(Debug, Drop)]
pub enum Status {
    /// The input was read to its end, or to a request that closed the session.
    Ok,
    /// The words of the command line are none that the program knows.
    Usage,
    /// There is no file `config.properties`, or its text is no configuration. The key is the one of which the refusal speaks,
    /// if it speaks of one.
    BadConfig { key: Option<KeyText> },
    ReadFault,
    WriteFault,
    /// There are more than 2^40 bytes of input.
    InputTooLong,
    /// The disk failed, so that the configuration wasn't read or the repository broke.
    DiskFault,
    /// The keeper of rows failed, so that the repository broke.
    KeeperFault,
    /// The input ended inside a request.
    Cut,
    /// The disk failed in the middle of a download.
    DownloadFault,
    NoMemory,
}

impl Status {
    ghost use Rattle.std.specs.Prelude.{◌≡◌};
    ghost use Rattle.std.specs.Option.{option_copied};
    ghost use Rattle.nexrepo.specs.Statuses.{status_number, status_name, status_detail};

    /// The number with which the program ends.
    pub fn number(&self) -> u8
        ensures { result ≡ status_number self.now }
    {
        match self {
            Status::Ok => 0,
            Status::Usage => 2,
            Status::BadConfig { key: _ } => 3,
            Status::ReadFault => 4,
            Status::WriteFault => 5,
            Status::InputTooLong => 6,
            Status::DiskFault => 7,
            Status::KeeperFault => 8,
            Status::Cut => 9,
            Status::DownloadFault => 12,
            Status::NoMemory => 15,
        }
    }

    /// The name that the program prints.
    pub fn name(&self) -> &'static str
        ensures { result.now ≡ status_name self.now }
    {
        match self {
            Status::Ok => "Ok",
            Status::Usage => "Usage",
            Status::BadConfig { key: _ } => "BadConfig",
            Status::ReadFault => "ReadFault",
            Status::WriteFault => "WriteFault",
            Status::InputTooLong => "InputTooLong",
            Status::DiskFault => "DiskFault",
            Status::KeeperFault => "KeeperFault",
            Status::Cut => "Cut",
            Status::DownloadFault => "DownloadFault",
            Status::NoMemory => "NoMemory",
        }
    }

    /// What the program prints behind the name: of a configuration that is refused the key, or else the file.
    pub fn detail(&self) -> Option<&str>
        ensures { option_copied result ≡ status_detail self.now }
    {
        match self {
            Status::BadConfig { key: Some(key) } => Some(key.as_str()),
            Status::BadConfig { key: None } => Some(CONFIG_FILE),
            _ => None,
        }
    }
}

/// The name of the file that sets a repository up.
pub const CONFIG_FILE: &str = "config.properties";
