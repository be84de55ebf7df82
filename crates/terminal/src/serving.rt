// Serving a byte run.
ghost use Rattle.std.specs.Prelude.{◌≡◌, ◌≤◌, ◌++◌, length, drop};
ghost use Rattle.terminal.specs.Buses.{bus};
ghost use Rattle.terminal.specs.Serves.{due, due_of, served, afters, answered, report_of, Serves, NeverShort};

use crate::answers::{ROOM, Served, Stop};
use crate::terminal::Terminal;
use bank::GaugeBank;
use command::split;

// What serving does next: the next command of what is left of a run and the bytes that it uses, or why serving stops. It looks for the run's end first, then for an end character, then at the room for answers.
fn next_command(rest: &[u8], room: usize) -> Result<(&[u8], usize), Stop>
    ensures { due_of result ≡ due rest.now room }
{
    if rest.is_empty() {
        return Err(Stop::End);
    }
    let (command, used) = split(rest).map_err(|_| Stop::NoEnd)?;
    if room < ROOM {
        return Err(Stop::ShortBuffer);
    }
    Ok((command, used))
}

impl<B: GaugeBank> Terminal<B> {
    // Obeys the commands of a byte run in order, and writes their answers one after another, until it stops at the run's end, or without an end character, or for want of room.
    pub fn serve(&mut self, run: &[u8], answers: &mut [u8]) -> Served
        ensures state { bus B.shows self.new ≡ afters (bus B.shows self.old) (served (length answers.old) (bus B.shows self.old) run.now) }
        ensures value { result ≡ report_of (bus B.shows self.old) run.now (served (length answers.old) (bus B.shows self.old) run.now) }
        ensures buffer { answers.new ≡ answered (bus B.shows self.old) (served (length answers.old) (bus B.shows self.old) run.now) ++ drop result.written answers.old }
        ensures within { result.written ≤ length answers.old }
        ensures law { Serves (length answers.old) (bus B.shows self.old) run.now (served (length answers.old) (bus B.shows self.old) run.now) result }
        ensures room { NeverShort (length answers.old) (bus B.shows self.old) run.now result }
    {
        let mut used = 0;
        let mut written = 0;
        loop {
            match next_command(&run[used..], answers.len() - written) {
                Err(stopped) => {
                    return Served {
                        used,
                        written,
                        stopped,
                    };
                }
                Ok((command, n)) => {
                    let obeyed = self.obey(command, &mut answers[written..]);
                    used += n;
                    written += obeyed.written;
                }
            }
        }
    }
}
