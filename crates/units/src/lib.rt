// Microseconds to slices: a run-time by what the tick leaves of a slice, rounded up; a period by exact division; a deadline rounded
// down. None is refusal 17.
#![tactic(auto)]

ghost use Rattle.std.specs.Prelude.{◌≡◌};
ghost use Rattle.units.specs.Conversion.{runtime_slices, period_slices, deadline_slices};

// The tick handler takes its cost, `tick`, of every slice. In 32 bits, for the field unit: rounding up adds nothing before it
// divides, so nothing wraps.
pub fn runtime_slices(micros: u32, slice: u32, tick: u32) -> Option<u32>
    ensures { result ≡ runtime_slices micros slice tick }
{
    if tick < slice {
        Some(micros.div_ceil(slice - tick))
    } else {
        None
    }
}

// The tick does not change how long a slice is.
pub fn period_slices(micros: u32, slice: u32) -> Option<u32>
    ensures { result ≡ period_slices micros slice }
{
    if slice != 0 && micros % slice == 0 {
        Some(micros / slice)
    } else {
        None
    }
}

// A deadline is kept, so it does not come later than asked.
pub fn deadline_slices(micros: u32, slice: u32) -> Option<u32>
    ensures { result ≡ deadline_slices micros slice }
{
    micros.checked_div(slice)
}
