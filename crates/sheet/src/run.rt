// Runs a sheet, line by line, up to the first that is wrong.
use crate::steps;
use crate::tool::Tool;
use bench::{Bytes, Gun};
use line::ROOM;
use report::{fault, show};
use state::bytes::block;
use syntax::{Line, Step, Stop, Turn};

// A step with n bytes, and m to expect. One match: a step is a letter of the sheet, and each takes other things.
fn run_step(step: Step, text: &[u8], n: usize, m: usize, tool: &mut Tool, gun: &mut Gun) {
    let mut first = [0; ROOM];
    let mut second = [0; ROOM];
    syntax::bytes(text, n, &mut first);
    syntax::expected(step, text, m, &mut second);
    let bytes = Bytes::front(first, n);
    let expected = Bytes::front(second, m);
    let bytes = bytes.as_slice();
    let expected = expected.as_slice();
    match step {
        Step::PowerUp => steps::power_up(bytes, tool, gun),
        Step::Measured => steps::measured(bytes, gun),
        Step::Wire => steps::wire(bytes, expected, tool, gun),
        Step::Command => steps::command(bytes, expected, tool, gun),
        Step::Slot => steps::slot(bytes, expected, tool, gun),
        Step::Unlock => steps::unlock(bytes, expected, tool, gun),
        Step::Repeat => steps::repeat(bytes, expected, tool, gun),
        Step::Event => steps::event(bytes, expected, tool, gun),
        Step::Slice => steps::slice(bytes, expected, tool, gun),
    }
}

fn print_name(text: &[u8]) {
    show::print(b"  ");
    show::print(block(text, syntax::NAME, syntax::BYTES - syntax::NAME));
}

fn begin_case(text: &[u8], tool: &mut Tool) {
    show::print(block(text, syntax::NAME, text.len()));
    show::print(b"\n");
    tool.begin();
}

fn end_case(tool: &mut Tool) {
    show::print(b"  the whole case           ");
    show::print_verdict(tool.good);
    show::print(b"\n\n");
    tool.end();
}

fn run_turn(turn: Turn, text: &[u8], tool: &mut Tool, gun: &mut Gun) {
    match turn {
        Turn::Pass => {}
        Turn::Begin => begin_case(text, tool),
        Turn::End => end_case(tool),
        Turn::Run(step, n, m) => {
            print_name(text);
            run_step(step, text, n, m, tool, gun);
            show::print(b"\n");
            tool.step();
        }
    }
}

fn run_line(text: &[u8], tool: &mut Tool, gun: &mut Gun) -> Result<(), Stop> {
    tool.next_line();
    let turn = syntax::turn_of(tool.case, syntax::line_of(text), tool.line)?;
    run_turn(turn, text, tool, gun);
    Ok(())
}

fn run_lines(text: &[u8], tool: &mut Tool, gun: &mut Gun) -> Result<(), Stop> {
    let mut at = 0;
    // No `for`: it goes on by a line and its ending.
    while at < text.len() {
        let end = syntax::line_end(text, at);
        run_line(&text[at..end], tool, gun)?;
        let ending = syntax::ending(text, end);
        if ending == 0 {
            return Ok(());
        }
        at = end + ending;
    }
    Ok(())
}

// The sheet's end ends a case, as an empty line does.
fn run_all(text: &[u8], tool: &mut Tool, gun: &mut Gun) -> Result<(), Stop> {
    run_lines(text, tool, gun)?;
    let turn = syntax::turn_of(tool.case, Ok(Line::Empty), tool.line)?;
    run_turn(turn, b"", tool, gun);
    Ok(())
}

// What stands at the end of a sheet that was run whole.
fn finish(tool: Tool) {
    if tool.steps == 0 {
        fault::say_no_step();
        return;
    }
    show::print_end(tool.cases, tool.steps, tool.different);
    if 0 < tool.different
        && let Some(line) = tool.first
    {
        fault::tell_first(line);
    }
}

pub fn run(text: &[u8], gun: &mut Gun) {
    let mut tool = Tool::new();
    match run_all(text, &mut tool, gun) {
        Ok(()) => finish(tool),
        Err(stop) => fault::say(stop),
    }
}
