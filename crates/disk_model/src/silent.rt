//! A disk that tells nothing, as the adapter of a real folder does: it shows that the traits can be met without knowing
//! what the files hold.
ghost use Rattle.std.specs.Prelude.{◌≡◌};

use crate::disk::Disk;
use crate::disk_err::DiskErr;
use crate::memory::count::{one_more, with_part};
use crate::reader::Reader;
use crate::writer::Writer;
use nx_base::Name;
use nx_io::Failed;
use std::alloc::Global;

#[derive(Drop)]
pub struct SilentDisk {
    pub alloc: Global,
    pub faults: u64,
    pub looked: Option<u64>,
    pub shown: u64,
}

pub struct SilentPart {
    pub faults: u64,
    pub len: u64,
    pub ended: bool,
}

impl SilentPart {
    /// How often it failed. It ends the part.
    fn into_faults(self) -> u64
        ensures { result ≡ self.faults }
    {
        let SilentPart {
            faults,
            len: _,
            ended: _,
        } = self;
        faults
    }
}

impl Writer for SilentPart {
    ghost use Rattle.std.specs.Prelude.{[], None};

    type Sealed = SilentPart;

    ghost told = { ⊥ };

    ghost written = { λ w. [] };

    ghost content = { λ w. [] };

    ghost faults = { λ w. w.faults };

    ghost plan = { λ w. None };

    fn write(&mut self, part: &[u8]) -> Result<(), DiskErr> {
        if part.is_empty() {
            return Ok(());
        }
        self.faults = one_more(self.faults);
        Err(DiskErr::Failed)
    }

    fn seal(&mut self) -> Result<SilentPart, DiskErr> {
        Ok(SilentPart {
            faults: 0,
            len: 0,
            ended: false,
        })
    }

    fn abort(self) {
        let _faults = self.into_faults();
    }
}

impl Reader for SilentPart {
    ghost use Rattle.std.specs.Prelude.{[], None};

    ghost told = { ⊥ };

    ghost left = { λ r. [] };

    ghost size = { λ r. r.len };

    ghost ended = { λ r. r.ended };

    ghost faults = { λ r. r.faults };

    ghost plan = { λ r. None };

    fn read(&mut self, buf: &mut [u8]) -> Result<usize, Failed> {
        if buf.is_empty() {
            self.faults = one_more(self.faults);
            return Err(Failed);
        }
        self.ended = true;
        Ok(0)
    }

    fn len(&self) -> u64 {
        self.len
    }
}

impl Disk for SilentDisk {
    ghost use Rattle.std.specs.Prelude.{[], None};

    type Sealed = SilentPart;

    type Writer = SilentPart;

    type Reader = SilentPart;

    ghost told = { ⊥ };

    ghost tree = { λ d n. None };

    ghost faults = { λ d. d.faults };

    ghost clock = { λ d. 0 };

    ghost lists = { λ d t n. [] };

    ghost plan = { λ d. None };

    ghost last_look = { λ d. d.looked };

    ghost shown = { λ d. d.shown };

    ghost writers_tell = { λ told. told };

    ghost readers_tell = { λ told. told };

    ghost present = { λ d told n. absurd told };

    fn temp(&mut self) -> Result<SilentPart, DiskErr> {
        Ok(SilentPart {
            faults: 0,
            len: 0,
            ended: false,
        })
    }

    fn install(&mut self, file: SilentPart, _name: &Name) -> Result<(), DiskErr> {
        let _faults = file.into_faults();
        self.shown = one_more(self.shown);
        Ok(())
    }

    fn discard(&mut self, file: SilentPart) {
        let _faults = file.into_faults();
    }

    fn give_up(&mut self, file: SilentPart) {
        self.faults = with_part(self.faults, file.into_faults());
    }

    fn end_reader(&mut self, file: SilentPart) {
        self.faults = with_part(self.faults, file.into_faults());
    }

    fn sync(&mut self, _name: &Name) -> Result<(), DiskErr> {
        self.faults = one_more(self.faults);
        Err(DiskErr::Failed)
    }

    fn remove(&mut self, _name: &Name) -> Result<bool, DiskErr> {
        self.shown = one_more(self.shown);
        Ok(true)
    }

    fn read_small(&mut self, _name: &Name) -> Result<Option<Vec<u8>>, DiskErr> {
        self.looked = None;
        Ok(None)
    }

    fn open_file(&mut self, _name: &Name) -> Result<Option<SilentPart>, DiskErr> {
        self.looked = Some(3);
        Ok(Some(SilentPart {
            faults: 0,
            len: 3,
            ended: false,
        }))
    }

    fn list(&mut self, _prefix: &Name) -> Result<Vec<Name>, DiskErr> {
        Ok(Vec::new(self.alloc))
    }
}
