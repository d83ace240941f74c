//! The law of tables that show a state.
ghost use Rattle.up_store.specs.Laws.{TablesShowOneState};

use up_canon::canonical_laws;
use up_rows::laws::rows_tell_the_state;

/// Tables show at most one sound state.
pub fn tables_show_one_state()
    ensures { TablesShowOneState }
{
    canonical_laws();
    rows_tell_the_state();
}
