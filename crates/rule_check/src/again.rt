// A step that a signal interrupts is made again.
ghost use Rattle.rule_check.specs.Again.{MadeAgain};

use std::io;
use std::io::ErrorKind;

// How often a step that a signal interrupted is made again. A proved loop has to end; no run uses this up.
const TRIES: u32 = u32::MAX;

// Makes a step, and makes it again as long as a signal interrupts it. The step is lent, so that its caller knows what the last one
// left.
pub fn again<F: FnMut() -> io::Result<usize>>(step: &mut F) -> io::Result<usize>
    requires { F.IsAlwaysCallable step.old }
    ensures { MadeAgain F.step step.old result step.new }
{
    for _ in 1..TRIES {
        match step() {
            Err(error) if error.kind() == ErrorKind::Interrupted => {}
            done => return done,
        }
    }
    step()
}
