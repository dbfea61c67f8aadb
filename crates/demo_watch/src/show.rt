// What is shown: a game is watched, and everything that a box meets comes once.
use crate::line::Line;
use std::io;

pub(crate) fn run(rt: &impl Print) -> io::Result<()> {
    let mut line = handshake(rt)?;
    go_on(rt, &mut line)?;
    lose(rt, &mut line)?;
    catch_up(rt, &mut line)?;
    leave(rt, &mut line)?;
    measure(rt, &mut line)?;
    fall_silent(rt, &mut line)
}

// A frame of the game arrives at the box.
fn arrive(
    rt: &impl Print,
    line: &mut Line,
    frame: i32,
    inputs: [u8; 2],
    now: u32,
) -> io::Result<()> {
    line.host.send_input(rt, frame, inputs, now)?;
    line.meet(rt, now)
}

// Until the box has its five replies it shows nothing.
fn handshake(rt: &impl Print) -> io::Result<Line> {
    println!(rt; "# The handshake")?;
    let mut line = Line::begun(rt)?;
    line.viewer.advance(rt)?;
    line.synchronize(rt)?;
    line.show_events(rt)?;
    Ok(line)
}

// With each frame that arrives the box goes on by one; where none has, it waits.
fn go_on(rt: &impl Print, line: &mut Line) -> io::Result<()> {
    println!(rt; "# Two frames")?;
    arrive(rt, line, 0, [0x05, 0x11], 100)?;
    line.viewer.advance(rt)?;
    arrive(rt, line, 1, [0x07, 0x12], 117)?;
    line.viewer.advance(rt)?;
    line.viewer.advance(rt)
}

// The datagram with frame 2 is lost. The next one has frame 2 as well, since nobody acknowledged it.
fn lose(rt: &impl Print, line: &mut Line) -> io::Result<()> {
    println!(rt; "# A datagram is lost")?;
    line.host.send_input(rt, 2, [0x02, 0x13], 133)?;
    line.host.show_messages(rt, b"loses ")?;
    line.host.take_messages(rt)?;
    line.viewer.advance(rt)?;
    arrive(rt, line, 3, [0x02, 0x14], 150)?;
    line.viewer.show_messages(rt)?;
    line.viewer.show_place(rt)?;
    line.viewer.advance(rt)
}

// Three more frames arrive while the box stands still. It is then more than two behind, and goes on by three at once.
fn catch_up(rt: &impl Print, line: &mut Line) -> io::Result<()> {
    println!(rt; "# The box catches up")?;
    arrive(rt, line, 4, [0x03, 0x15], 167)?;
    arrive(rt, line, 5, [0x03, 0x16], 183)?;
    arrive(rt, line, 6, [0x04, 0x17], 200)?;
    line.viewer.show_place(rt)?;
    line.viewer.advance(rt)?;
    line.viewer.show_place(rt)?;
    line.viewer.advance(rt)
}

fn leave(rt: &impl Print, line: &mut Line) -> io::Result<()> {
    println!(rt; "# Player 1 leaves after frame 6")?;
    line.host.lose_player(6);
    arrive(rt, line, 7, [0x04, 0x00], 217)?;
    line.viewer.advance(rt)
}

// What the box asks at 430 is answered at 450. There are statistics from a second after the handshake's beginning on.
fn measure(rt: &impl Print, line: &mut Line) -> io::Result<()> {
    println!(rt; "# The connection")?;
    line.meet(rt, 430)?;
    line.meet(rt, 450)?;
    line.viewer.show_stats(rt, 999)?;
    line.viewer.show_stats(rt, 1000)
}

// The host sends no more: the box announces the silence, and later the end.
fn fall_silent(rt: &impl Print, line: &mut Line) -> io::Result<()> {
    println!(rt; "# The host falls silent")?;
    for now in [1000, 2500] {
        line.viewer.poll(rt, now)?;
        line.viewer.show_events(rt)?;
    }
    line.viewer.advance(rt)
}
