// What has been read of a text.
ghost use Rattle.std.specs.Prelude.{◌≤◌, IfOk};
ghost use Rattle.text.specs.Progress.{Fits, Fits-prop};

use crate::stages::Stage;
use plan::Refusal;

// The stage, or the refusal at which the text stopped; the number of the line in hand, or of the line at fault; and how many bytes of it are held.
#[derive(Clone, Copy)]
pub struct State {
    pub stage: Result<Stage, Refusal>,
    pub line: usize,
    pub held: usize,
    pub ghost fits: { IfOk stage Fits } by { Fits-prop stage },
    pub ghost held_bound: { held ≤ 1024 },
}
