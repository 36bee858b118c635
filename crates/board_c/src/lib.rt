// The board's entry as C calls it: c/timonedra.h declares it. A crate of its own, since C's exports need one. Assumes nothing.
#![tactic(auto)]

ghost use Rattle.std.specs.Prelude.{◌≡◌};
ghost use Rattle.board.specs.Board.{board_answer, board_image};

// Serves one request to the run in an image, in place.
#[unsafe(no_mangle)]
pub extern "C" fn timonedra_serve(image: &mut [u8], page: u32) -> u32
    ensures answer { result ≡ board_answer image.old page }
    ensures bytes { image.new ≡ board_image image.old page }
{
    board::timonedra_serve(image, page)
}
