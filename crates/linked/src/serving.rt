// One run served in a new hall.
ghost use Rattle.std.specs.Prelude.{◌≡◌, ◌++◌, ◌≤◌, length, drop};
ghost use Rattle.bank.specs.Fitting.{mapped_ok};
ghost use Rattle.terminal.specs.Buses.{silent};
ghost use Rattle.terminal.specs.Serves.{served as obeyed, answered, report_of};
ghost use Rattle.linked.specs.Halls.{hall, taped, spoken, played, cause_number, count_of};

use crate::setting_up::{checked, dials, joined, raised, write_down};
use bank::{GaugeBank, MOST_RECORDS, Record, Recording};
use fault::Cause;
use terminal::{Served, Terminal};

// Serves a byte run on a new terminal over a bank.
pub fn served<B: GaugeBank + Drop>(bank: B, run: &[u8], answers: &mut [u8]) -> Served
    ensures value { result ≡ report_of (silent (B.shows bank)) run.now (obeyed (length answers.old) (silent (B.shows bank)) run.now) }
    ensures buffer { answers.new ≡ answered (silent (B.shows bank)) (obeyed (length answers.old) (silent (B.shows bank)) run.now) ++ drop result.written answers.old }
    ensures within { result.written ≤ length answers.old }
{
    let mut terminal = Terminal::new(bank);
    terminal.serve(run, answers)
}

// How many bytes serving a run over a bank writes.
fn answer<B: GaugeBank + Drop>(bank: B, run: &[u8], answers: &mut [u8]) -> usize
    ensures count { result ≡ length (spoken (B.shows bank) (length answers.old) run.now) }
    ensures buffer { answers.new ≡ spoken (B.shows bank) (length answers.old) run.now ++ drop result answers.old }
    ensures within { result ≤ length answers.old }
{
    served(bank, run, answers).written
}

// Serves a run over dials with so many boxes on them; to the lowest box the ports 1 to a number were joined at port 1. It answers how many bytes were written, or why there is no such hall.
fn serve_dials(
    boxes: u8,
    ports: u8,
    digits: &[i32],
    run: &[u8],
    answers: &mut [u8],
) -> Result<usize, Cause>
    ensures answer { result ≡ mapped_ok (λ m. length (spoken m (length answers.old) run.now)) (hall boxes ports digits.now) }
    ensures buffer { answers.new ≡ played (hall boxes ports digits.now) (length answers.old) run.now ++ drop (count_of result) answers.old }
    ensures within { count_of result ≤ length answers.old }
{
    checked(boxes, ports, digits.len())?;
    let dials = dials(digits);
    if boxes == 0 {
        return Ok(answer(dials, run, answers));
    }
    let one = joined(dials, ports)?;
    Ok(match boxes {
        1 => answer(one, run, answers),
        2 => answer(raised(one), run, answers),
        3 => answer(raised(raised(one)), run, answers),
        _ => answer(raised(raised(raised(one))), run, answers),
    })
}

// Serves a run over a recording of these digits at port 1. It answers how many bytes were written, or why there is no such recording.
fn serve_recording(digits: &[i32], run: &[u8], answers: &mut [u8]) -> Result<usize, Cause>
    ensures answer { result ≡ mapped_ok (λ m. length (spoken m (length answers.old) run.now)) (taped digits.now) }
    ensures buffer { answers.new ≡ played (taped digits.now) (length answers.old) run.now ++ drop (count_of result) answers.old }
    ensures within { count_of result ≤ length answers.old }
{
    if digits.len() > MOST_RECORDS {
        return Err(Cause::OutOfRange);
    }
    // Records in fixed memory, as many as count: a function that C calls is given no allocator.
    let mut records = [Record { port: 1, digits: 0 }; MOST_RECORDS];
    let count = write_down(digits, &mut records);
    let mut recording = Recording::new(&records[..count]);
    // It does not refuse: port and factor are in their ranges.
    let _ = recording.fit(1, 1000);
    Ok(answer(recording, run, answers))
}

// Tells C how serving came out: how many bytes were written, none where the hall was refused, and then the number of the cause.
fn told(outcome: Result<usize, Cause>, written: &mut usize) -> u8
    ensures number { result ≡ cause_number outcome }
    ensures count { written.new ≡ count_of outcome }
{
    match outcome {
        Ok(count) => {
            *written = count;
            0
        }
        Err(cause) => {
            *written = 0;
            cause.number()
        }
    }
}

// Serves a run over dials with so many boxes on them; to the lowest box the ports 1 to a number were joined at port 1. It answers 0, or the number of the cause for which there is no such hall: 7 for more than 4 boxes; 14 for more than 32 dials, a joined port above 31 or without a box; 16 for a ninth gauge. Then nothing is served, and 0 bytes are written.
#[unsafe(no_mangle)]
pub extern "C" fn weighing_serve_dials(
    boxes: u8,
    ports: u8,
    digits: &[i32],
    run: &[u8],
    answers: &mut [u8],
    written: &mut usize,
) -> u8
    ensures number { result ≡ cause_number (hall boxes ports digits.now) }
    ensures count { written.new ≡ length (played (hall boxes ports digits.now) (length answers.old) run.now) }
    ensures buffer { answers.new ≡ played (hall boxes ports digits.now) (length answers.old) run.now ++ drop written.new answers.old }
    ensures within { written.new ≤ length answers.old }
{
    told(serve_dials(boxes, ports, digits, run, answers), written)
}

// Serves a run over a recording of these digits at port 1. It answers 0, or 7 for more digits than a recording counts; then nothing is served, and 0 bytes are written.
#[unsafe(no_mangle)]
pub extern "C" fn weighing_serve_recording(
    digits: &[i32],
    run: &[u8],
    answers: &mut [u8],
    written: &mut usize,
) -> u8
    ensures number { result ≡ cause_number (taped digits.now) }
    ensures count { written.new ≡ length (played (taped digits.now) (length answers.old) run.now) }
    ensures buffer { answers.new ≡ played (taped digits.now) (length answers.old) run.now ++ drop written.new answers.old }
    ensures within { written.new ≤ length answers.old }
{
    told(serve_recording(digits, run, answers), written)
}
