//! Worked examples, each proved of the rules themselves.
ghost use Rattle.std.specs.Prelude.{◌≡◌, ℕ, List, [], ◌∷◌, Ok, Err};
ghost use Rattle.service.specs.Encoding.{encoding};
ghost use Rattle.service.specs.Examples.{an_access_point};
ghost use Rattle.service.specs.Reading.{reading};

/// The packet 0x14 0x00 0xAA: video, frame 0, a random access point, with the payload 0xAA.
pub fn access_point_packet() -> [u8; 3]
    ensures bytes { result ≡ 0x14 ∷ 0x00 ∷ 0xAA ∷ [] }
    ensures reads { reading result ≡ Ok (an_access_point, 0xAA ∷ []) }
    ensures writes { encoding an_access_point (0xAA ∷ []) ≡ result }
{
    [0x14, 0x00, 0xAA]
}

/// The map 0x07: adaptation with a frame id. A packet that begins so is refused, whatever follows.
pub fn adaptation_with_frame_id() -> u8
    ensures byte { result ≡ 0x07 }
    ensures refused { (rest : List ℕ) → reading (result ∷ rest) ≡ Err 32 }
{
    0x07
}
