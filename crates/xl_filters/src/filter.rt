ghost use Rattle.std.specs.Prelude.{◌≡◌};
ghost use Rattle.spec_filters.specs.Filters.{table_of, after_use};

use crate::table::Table;

/// A filter of single bytes, as the state that it is in.
pub trait PointFilter: Drop {
    ghost use Rattle.spec_filters.specs.declared.FilterState.{FilterState};

    ghost state: { Self → FilterState };

    /// The table of the state as it was. The filter was then used once more.
    fn table(&mut self) -> Table
        ensures table { result ≡ table_of (state self.old) }
        ensures after { state self.new ≡ after_use (state self.old) };
}
