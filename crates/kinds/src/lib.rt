// Which question a line is, by how many words it has and its first. A line that is none gets `bad line`. Assumes nothing.
#![tactic(auto)]

ghost use Rattle.hexadecimal.specs.Room.{Wrote};
ghost use Rattle.kinds.specs.Kinds.{line_answer};

// The answer of a line, without its end, written at an offset; answers the offset behind it.
pub fn answer(line: &[u8], out: &mut [u8], at: usize) -> usize
    ensures { Wrote out.old at (line_answer line.now) result out.new }
{
    let kind = fields::word(line, 0);
    match fields::words_in(line) {
        2 if kind == b"sound".as_slice() => calls::sound(line, out, at),
        2 if kind == b"selection".as_slice() => calls::selection(line, out, at),
        2 if kind == b"readtrace".as_slice() => files::readtrace(line, out, at),
        2 if kind == b"readimage".as_slice() => files::readimage(line, out, at),
        3 if kind == b"request".as_slice() => calls::request(line, out, at),
        3 if kind == b"trial".as_slice() => calls::trial(line, out, at),
        3 if kind == b"layer".as_slice() => calls::layer(line, out, at),
        3 if kind == b"certain".as_slice() => calls::certain(line, out, at),
        3 if kind == b"writeimage".as_slice() => files::writeimage(line, out, at),
        3 if kind == b"board".as_slice() => files::serve_board(line, out, at),
        4 if kind == b"look".as_slice() => files::look(line, out, at),
        5 if kind == b"start".as_slice() => calls::start(line, out, at),
        5 if kind == b"fill".as_slice() => files::fill(line, out, at),
        7 if kind == b"writetrace".as_slice() => files::writetrace(line, out, at),
        _ => answers::bad(out, at),
    }
}
