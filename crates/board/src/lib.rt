// The entry for the board's C program: one request to the run in an image. Assumes nothing.
#![tactic(auto)]

ghost use Rattle.std.specs.Prelude.{◌≡◌};
ghost use Rattle.board.specs.Board.{Small, Settles, packed, apart, image_after, board_answer, board_image};

use run::{Run, Served};
use serve::Event;

// The four numbers of a packed answer: the refusal, 1 on a miss, the slot, the victim. Numbers, as the macros of c/timonedra.h
// take them apart, which the clause `apart` says.
#[derive(Clone, Copy)]
pub struct Parts {
    pub refusal: u32,
    pub miss: u32,
    pub slot: u32,
    pub victim: u32,
}

// Takes a packed answer apart.
pub fn unpack(answer: u32) -> Parts
    ensures { result ≡ apart answer }
{
    Parts {
        refusal: answer >> 24,
        miss: (answer >> 16) & 1,
        slot: (answer >> 10) & 63,
        victim: answer & 1023,
    }
}

// The packed answer of an event: victim in bits 0 to 9, slot in bits 10 to 15, bit 16 on a miss, refusal in bits 24 to 31.
fn pack(event: Event) -> u32
    requires { Small event }
    ensures { result ≡ packed event }
{
    match event {
        Event::Hit { slot } => (slot as u32 & 63) << 10,
        Event::Miss { slot, victim } => {
            (victim as u32 & 1023) | ((slot as u32 & 63) << 10) | (1 << 16)
        }
        Event::Refused(refusal) => u32::from(refusal.number()) << 24,
    }
}

// Packs the answer of a request and, unless it is refused, writes the next run over the image.
fn settle(image: &mut [u8], served: Served) -> u32
    requires { Settles image.old served served.event }
    ensures answer { result ≡ packed served.event }
    ensures bytes { image.new ≡ image_after image.old served served.event }
{
    let event = served.event;
    if let Event::Refused(_) = event {
        return pack(event);
    }
    served.run.parts().write(image);
    pack(event)
}

// Serves one request to the run in an image, in place.
#[unsafe(no_mangle)]
pub extern "C" fn timonedra_serve(image: &mut [u8], page: u32) -> u32
    ensures answer { result ≡ board_answer image.old page }
    ensures bytes { image.new ≡ board_image image.old page }
{
    settle(image, Run::blank().request_in(image, page as usize))
}
