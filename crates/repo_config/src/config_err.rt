use crate::key_text::KeyText;
use java_props::PropsErr;
use nx_base::NoMemory;
use std::alloc::{AllocError, Global};

/// Why a text is no configuration. The first refusal in the order of `specs/Refusals.antt` is told.
#[derive(Debug, Drop)]
pub enum ConfigErr {
    /// It is no properties text.
    Props(PropsErr),
    /// The table has no such key, its name isn't declared, or its kind doesn't have it.
    UnknownKey { key: KeyText },
    /// The value breaks the rule of its key, or a required key isn't there.
    BadValue { key: KeyText },
    /// A name stands twice in a list.
    DuplicateName { key: KeyText },
    /// A repository's store isn't declared, or isn't there.
    NoStore { key: KeyText },
    /// A member of a group is a group. No key of today leads to it.
    NestedGroup { key: KeyText },
    /// A member of a group is a member of another. No key of today leads to it.
    StoreInTwoGroups { key: KeyText },
    /// Memory was refused.
    NoMemory,
}

impl ConfigErr {
    ghost use Rattle.std.specs.Prelude.{◌≡◌};
    ghost use Rattle.std.specs.Option.{option_copied};
    ghost use Rattle.repo_config.specs.declared.config_err.ConfigErr.TheVariants as refused;
    ghost use Rattle.repo_config.specs.Told.{Tells, key_told};

    /// The key of which the refusal speaks. It takes no memory.
    pub fn key(&self) -> Option<&str>
        ensures { option_copied result ≡ key_told self.now }
    {
        match self {
            ConfigErr::UnknownKey { key }
            | ConfigErr::BadValue { key }
            | ConfigErr::DuplicateName { key }
            | ConfigErr::NoStore { key }
            | ConfigErr::NestedGroup { key }
            | ConfigErr::StoreInTwoGroups { key } => Some(key.as_str()),
            ConfigErr::Props(_) | ConfigErr::NoMemory => None,
        }
    }

    pub(crate) fn unknown_key(alloc: Global, key: &str) -> ConfigErr
        ensures { Tells (refused.UnknownKey key.now) result }
    {
        match KeyText::new(alloc, key) {
            Ok(key) => ConfigErr::UnknownKey { key },
            Err(_) => ConfigErr::NoMemory,
        }
    }

    pub(crate) fn duplicate_name(alloc: Global, key: &str) -> ConfigErr
        ensures { Tells (refused.DuplicateName key.now) result }
    {
        match KeyText::new(alloc, key) {
            Ok(key) => ConfigErr::DuplicateName { key },
            Err(_) => ConfigErr::NoMemory,
        }
    }

    pub(crate) fn bad_value(alloc: Global, key: &str) -> ConfigErr
        ensures { Tells (refused.BadValue key.now) result }
    {
        match KeyText::new(alloc, key) {
            Ok(key) => ConfigErr::BadValue { key },
            Err(_) => ConfigErr::NoMemory,
        }
    }

    pub(crate) fn no_store(alloc: Global, key: &str) -> ConfigErr
        ensures { Tells (refused.NoStore key.now) result }
    {
        match KeyText::new(alloc, key) {
            Ok(key) => ConfigErr::NoStore { key },
            Err(_) => ConfigErr::NoMemory,
        }
    }
}

impl From<AllocError> for ConfigErr {
    ghost use Rattle.repo_config.specs.declared.config_err.ConfigErr.TheVariants.{NoMemory};
    ghost use Rattle.std.specs.Prelude.{◌≡◌};

    ghost from_gives = { λ _ e. e ≡ NoMemory };

    fn from(_: AllocError) -> ConfigErr {
        ConfigErr::NoMemory
    }
}

impl From<NoMemory> for ConfigErr {
    ghost use Rattle.repo_config.specs.declared.config_err.ConfigErr.TheVariants as refused;
    ghost use Rattle.std.specs.Prelude.{◌≡◌};

    ghost from_gives = { λ _ e. e ≡ refused.NoMemory };

    fn from(_: NoMemory) -> ConfigErr {
        ConfigErr::NoMemory
    }
}
