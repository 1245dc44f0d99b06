// How many equal acks accept a transfer.
ghost use Rattle.std.specs.Prelude.{◌≡◌};
ghost use Rattle.model.specs.Acks.{enough};

// Twice the acks exceed n + 3f.
pub fn is_enough(seats: u8, faults: u8, acks: u8) -> bool
    ensures { result ≡ enough seats faults acks }
{
    (seats as u32) + 3 * (faults as u32) < 2 * (acks as u32)
}
