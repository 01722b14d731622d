ghost use Rattle.std.specs.Prelude.{◌≡◌, ◌+◌, ◌^◌, ◌<◌, length};
ghost use Rattle.spiral_sets.specs.Sets.{IsSet, name_of};

use spiral_sets::ParamSet;

/// The place in a frame of that set of a byte of its body: behind the header, which has 15 bytes and the set's name.
pub(super) fn place_in_frame(set: &ParamSet, place: usize) -> u64
    requires known { IsSet set.now }
    requires small { place < 2 ^ 32 }
    ensures { result ≡ 15 + length (name_of set.now) + place }
{
    (15 + set.name().len() + place) as u64
}
