// The memory of the output text.
ghost use Rattle.std.specs.Prelude.{◌≤◌, vec_len, vec_capacity};
ghost use Rattle.output.specs.Room.{room};

mod appends;
mod puts;

// The output text, with memory for all of it.
#[derive(Drop)]
pub struct Output {
    bytes: Vec<u8>,
    ghost taken: { room ≤ vec_capacity bytes },
    ghost inside: { vec_len bytes ≤ room },
}
