ghost use Rattle.std.specs.Prelude.{◌≡◌, None, Some, []};
ghost use Rattle.xl_ports.specs.Faults.{last_count};

use xl_ports::{Failed, Shelf};

/// A shelf on which nothing stands and each call fails, for who keeps an image in memory alone. No draft is ever open.
#[derive(Drop)]
pub(crate) struct NoShelf {
    open: bool,
}

impl NoShelf {
    pub(crate) fn new() -> NoShelf {
        NoShelf { open: false }
    }
}

impl Shelf for NoShelf {
    ghost shelf_state = { λ s. record {
      selected = Some [];
      is_open = s.open;
      disk = None;
      loads = last_count;
      reading = last_count;
      saving = last_count;
    } };

    fn select(&mut self, _name: &str) -> Result<(), Failed> {
        Err(Failed)
    }

    fn load(&mut self, _at: u64, _buf: &mut [u8]) -> Result<usize, Failed> {
        Err(Failed)
    }

    fn draft_new(&mut self) -> Result<(), Failed> {
        self.open = false;
        Err(Failed)
    }

    fn draft_add(&mut self, _bytes: &[u8]) -> Result<(), Failed> {
        Err(Failed)
    }

    fn draft_sync(&mut self) -> Result<(), Failed> {
        Err(Failed)
    }

    fn swap_in(&mut self) -> Result<(), Failed> {
        self.open = false;
        Err(Failed)
    }

    fn settle(&mut self) -> Result<(), Failed> {
        Err(Failed)
    }
}
