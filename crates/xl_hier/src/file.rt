ghost use Rattle.std.specs.Prelude.{◌≡◌, ◌<◌, ◌^◌, ℕ, List};
ghost use Rattle.std.specs.Arc.{arc_value};
ghost use Rattle.std.specs.Thread.{IsSync};
ghost use Rattle.xl_hier.specs.SoFar.{HasRead};

use crate::band::read_bands;
use crate::beside::read_beside;
use crate::frame::Frame;
use std::alloc::Global;
use std::sync::Arc;
use std::thread::Threads;
use xl_fields::ReadRefusedOrMemory;
use xl_tiles::TileRef;

// The fewest tiles that are read beside one another: to start threads takes as long as to walk the codes of some tens
// of tiles.
const LEAST_BESIDE: usize = 256;

/// A file whose tiles share its bytes, and how the tiles of a plane are read there.
pub trait TileFile {
    ghost bytes: { Self → List ℕ };

    /// What reading tiles asks: of what makes threads, that these may share it.
    ghost can_read: { Self → Type 0 };

    /// Its bytes.
    fn shared(&self) -> &Arc<Vec<u8>>
        ensures { (arc_value result.now).items ≡ bytes self.now };

    /// All tiles of a plane, row by row. The pointers to them begin at an offset.
    fn read_tiles(
        &self,
        alloc: Global,
        first: usize,
        frame: Frame,
    ) -> Result<Vec<TileRef>, ReadRefusedOrMemory>
        requires can { can_read self.now }
        requires small { first < 2 ^ 33 }
        ensures { HasRead (bytes self.now) first frame result };
}

/// The tiles are read one after another.
impl TileFile for Arc<Vec<u8>> {
    ghost bytes = { λ file. (arc_value file).items };

    ghost can_read = { λ file. Unit {0} };

    fn shared(&self) -> &Arc<Vec<u8>> {
        self
    }

    fn read_tiles(
        &self,
        alloc: Global,
        first: usize,
        frame: Frame,
    ) -> Result<Vec<TileRef>, ReadRefusedOrMemory> {
        read_bands(alloc, self, first, frame)
    }
}

// Whether it pays to read the tiles of a plane beside one another: codes are walked, and of plain tiles no byte is.
fn pays(frame: Frame) -> bool {
    frame.compression == 1 && frame.rows() * frame.columns() >= LEAST_BESIDE
}

/// A file, and what makes threads. The bands of a large plane in runs are read beside one another.
#[derive(Drop)]
pub struct FileBeside<'a, R> {
    pub rt: &'a R,
    pub file: &'a Arc<Vec<u8>>,
}

impl<'a, R: Threads + Sync> TileFile for FileBeside<'a, R> {
    ghost bytes = { λ beside. (arc_value beside.file.now).items };

    ghost can_read = { λ beside. IsSync R.row };

    fn shared(&self) -> &Arc<Vec<u8>> {
        self.file
    }

    fn read_tiles(
        &self,
        alloc: Global,
        first: usize,
        frame: Frame,
    ) -> Result<Vec<TileRef>, ReadRefusedOrMemory> {
        if pays(frame) {
            read_beside(self.rt, alloc, self.file, first, frame)
        } else {
            read_bands(alloc, self.file, first, frame)
        }
    }
}
