// The probe: reads calls from standard input, one a line, and writes an answer a line. What is written is decided by `stream`;
// here is only what reads and writes.
#![tactic(auto)]

ghost use Rattle.std.specs.Prelude.{◌≤◌, length, IfOk, IfSome};
ghost use Rattle.stream.specs.Input.{RoomForLines};

use failure::Failure;
use std::io::Read;
use std::process::ExitCode;

// What is at hand is the first `size` bytes of the input's buffer; `skipping` is what the last turn said of them.
#[derive(Clone, Copy)]
struct State {
    size: usize,
    skipping: bool,
    ended: bool,
}

// A line that is not too long leaves room to read more, and the longest answer leaves room for others.
const PAGE: usize = 400000;

fn write(rt: &impl Print, text: &[u8]) -> Result<(), Failure> {
    rt.write_all(text).map_err(|error| Failure {
        what: "standard output",
        error,
    })
}

// Reads more, behind what is at left. The input ends where there is no more; a turn that waits leaves room for some.
fn read_more(
    source: &mut impl Read,
    input: &mut [u8],
    size: usize,
    skipping: bool,
) -> Result<State, Failure>
    requires { size ≤ length input.old }
    ensures { IfOk result (λ state. state.size ≤ length input.new) }
{
    let more = source.read(&mut input[size..]).map_err(|error| Failure {
        what: "standard input",
        error,
    })?;
    Ok(State {
        size: size + more,
        skipping,
        ended: more == 0,
    })
}

// One turn, and what more of the input is read after it; none where the input has ended and all is written.
fn turn(
    rt: &impl Print,
    source: &mut impl Read,
    state: State,
    input: &mut [u8],
    text: &mut [u8],
) -> Result<Option<State>, Failure>
    requires room_for_lines { RoomForLines text.old }
    requires size_in_bounds { state.size ≤ length input.old }
    ensures { IfOk result (λ next. IfSome next (λ state. state.size ≤ length input.new)) }
{
    let ended = state.ended;
    let left = stream::turn(input, state.size, state.skipping, ended, text);
    write(rt, &text[..left.at])?;
    let (size, skipping) = (left.size, left.skipping);
    if !left.waits {
        return Ok(Some(State {
            size,
            skipping,
            ended,
        }));
    }
    if ended {
        return Ok(None);
    }
    Ok(Some(read_more(source, input, size, skipping)?))
}

// A proved loop has to end, and nothing says that the input does. So the turns are counted, up to more than any run makes.
fn turns(
    rt: &impl Print,
    source: &mut impl Read,
    input: &mut [u8],
    text: &mut [u8],
) -> Result<(), Failure>
    requires { RoomForLines text.old }
{
    let mut state = State {
        size: 0,
        skipping: false,
        ended: false,
    };
    for _ in 0..u64::MAX {
        let Some(next) = turn(rt, source, state, input, text)? else {
            break;
        };
        state = next;
    }
    Ok(())
}

fn main(rt: HostRuntime) -> ExitCode {
    let mut source = rt.stdin();
    let mut input = [0; PAGE];
    let mut text = [0; PAGE];
    match turns(&rt, &mut source, &mut input, &mut text) {
        Ok(()) => ExitCode::SUCCESS,
        Err(failure) => {
            let _ = eprintln!(rt; "{failure}");
            ExitCode::FAILURE
        }
    }
}
