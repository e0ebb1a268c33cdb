// Theory only: each function carries one theorem in its contract and does nothing.
#![tactic(auto)]

ghost use Rattle.protocol.specs.Shares.{SharesCompute, OpeningsOnce, OpeningsSound};
ghost use Rattle.protocol.specs.Gates.{OpeningsNumbered};
ghost use Rattle.protocol.specs.Runs.{CurvesHold, RunsSound, OpeningsComplete, TrueWordsExist, TrueWordsOnce, RunsComplete, WordsCausal};
ghost use Rattle.protocol.specs.Clear.{ValuesClear};
ghost use Rattle.protocol.specs.Engine.{TablesStand, EngineSound, RowsAlike};
ghost use Rattle.encoding.specs.Encodings.{standard};

use encoding::methods::{Methods, Standard};
use ring::Ring;

// Shares of constants, sums, differences, multiples and products are made seat by seat.
pub fn shares_compute<E>()
    ensures { SharesCompute E }
{}

// A row opens to one value at most.
pub fn openings_are_unique<E>()
    ensures { OpeningsOnce E }
{}

// A row whose inside words are shares of a value opens to that value or not at all.
pub fn openings_are_sound<E>()
    ensures { OpeningsSound E }
{}

// While the seats of a set have opened the values shared, what they hold and show are shares of the values.
pub fn curves_hold<E>()
    ensures { CurvesHold E }
{}

// Whatever rows came, every value that an inside seat has opened is the value shared.
pub fn runs_are_sound<E>()
    ensures { RunsSound E }
{}

// With true outside words a row opens to the value shared.
pub fn openings_are_complete<E>()
    ensures { OpeningsComplete E }
{}

// What a seat holds and shows hangs on nothing but what it has opened before.
pub fn words_are_causal<E>()
    ensures { WordsCausal E }
{}

// Where the two parts of every pair fit, the values of gates are those of the computation with nothing hidden.
pub fn values_are_clear<E>()
    ensures { ValuesClear E }
{}

// The list of openings has every opening, at its number.
pub fn openings_are_numbered()
    ensures { OpeningsNumbered }
{}

// Every seat has a true word at every gate.
pub fn true_words_exist<E>()
    ensures { TrueWordsExist E }
{}

// And an outside seat has one only.
pub fn true_words_are_unique<E>()
    ensures { TrueWordsOnce E }
{}

// Where all seats keep to the rules there is a run to the end.
pub fn runs_are_complete<E>()
    ensures { RunsComplete E }
{}

// The points of a ring of the engine make a table for every number of seats below theirs.
pub fn tables_stand<R: Ring>()
    ensures { TablesStand R.Ring.shape R.Ring.points }
{}

// Runs of the engine are sound, with every ring and every choice of methods.
pub fn engine_is_sound<R: Ring, M: Methods>()
    ensures { EngineSound R.Ring.shape R.Ring.points M.Methods.method }
{}

// A list of words opens at such a table to what it opens to as a row.
pub fn rows_open_alike<R: Ring>()
    ensures { RowsAlike R.Ring }
{}

// Every ring of the engine, with the usual methods.
pub fn usual_methods_are_sound<R: Ring>()
    ensures tables { TablesStand R.Ring.shape R.Ring.points }
    ensures runs { EngineSound R.Ring.shape R.Ring.points standard }
{
    tables_stand::<R>();
    engine_is_sound::<R, Standard>()
}
