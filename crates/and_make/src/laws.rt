//! What holds of each frame of a drill, by the definitions alone: no code is named here.
ghost use Rattle.std.specs.Prelude.{◌≡◌, ℕ, Ok};
ghost use Rattle.and_policy.specs.Frames.{fields};
ghost use Rattle.and_make.specs.Frames.{frame, fields_of};

/// Whatever words are drawn, the switch takes the frame, and reads of it the source VM's Ethernet and IPv4 addresses, the destination VM's
/// IPv4 address, TCP and both ports.
#[tactic(auto, using(crate::proofs::Taken::frame_is_taken))]
pub fn frames_are_taken()
    ensures { (x y z : ℕ) → fields (frame x y z) ≡ Ok (fields_of x y z) }
{}
