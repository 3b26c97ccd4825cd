// Schedules: does one fit two lists, and the maker of the proportional one.
#![tactic(auto)]

ghost use Rattle.std.specs.Prelude.{◌≡◌, ◌++◌, ◌+◌, ◌*◌, ◌<◌, ◌≤◌, length, drop};
ghost use Rattle.schedules.specs.Limited.{Limited};
ghost use Rattle.schedules.specs.Schedule.{gate_limit, only_steps, fits, next_step, proportional, made, filled};

// Why no schedule was made, by the refusal's number.
#[derive(Clone, Copy, PartialEq, Eq, Debug)]
pub enum ScheduleFault {
    GateCount = 6,
    ShortBuffer = 15,
}

// Whether each byte is a step. The first other one ends the reading.
fn only_steps(s: &[u8]) -> bool
    ensures { result ≡ only_steps s.now }
{
    s.iter().all(|step| *step <= 1)
}

// Whether the schedule has m zeros, p ones and no other byte. A caller may lend any number of bytes: a schedule of another length is not read.
pub fn fits(s: &[u8], m: u32, p: u32) -> bool
    ensures { result ≡ fits m p s.now }
{
    s.len() == m as usize + p as usize
        && only_steps(s)
        && s.iter().filter(|step| **step == 0).count() == m as usize
}

// The byte of the next step, with i and j gates already taken. A step stays a number: schedules are bytes in the C interface.
fn next_step(m: u32, p: u32, i: u32, j: u32) -> u8
    requires { Limited m p i j }
    ensures { result ≡ next_step m p i j }
{
    if i < m && i * p <= j * m { 0 } else { 1 }
}

// Fills the slots of m + p steps; i of U and j of V are taken so far.
fn fill(m: u32, p: u32, slots: &mut [u8])
    requires { (m ≤ gate_limit) × (p ≤ gate_limit) × (length slots.old ≡ m + p) }
    ensures { slots.new ≡ proportional m p }
{
    let mut i = 0;
    let mut j = 0;
    for slot in slots.iter_mut() {
        let step = next_step(m, p, i, j);
        *slot = step;
        if step == 0 {
            i += 1;
        } else {
            j += 1;
        }
    }
}

// The proportional schedule of m and p gates, written to the front of the buffer. The two counts are no struct: the C interface hands them in
// one by one, with no list.
pub fn proportional(m: u32, p: u32, buffer: &mut [u8]) -> Result<u32, ScheduleFault>
    ensures answer { result ≡ made m p buffer.old }
    ensures contents { buffer.new ≡ filled m p result buffer.old }
{
    let limit = circuits::base_limits().gates;
    if limit < m || limit < p {
        return Err(ScheduleFault::GateCount);
    }
    let steps = m + p;
    if buffer.len() < steps as usize {
        return Err(ScheduleFault::ShortBuffer);
    }
    fill(m, p, &mut buffer[..steps as usize]);
    Ok(steps)
}
