// Pack: the four words of a reel that may be packed.
ghost use Rattle.std.specs.Prelude.{◌≡◌};
ghost use Rattle.reels.specs.Pack.{pack_reply, pack_said};
ghost use Rattle.reels.specs.Told.{pack_told};

use crate::reel::{Reel, check_packing, words_of};
use layout::Refusal;

// Packs a reel into the four words of a record.
pub fn pack(reel: Reel) -> Result<[u64; 4], Refusal>
    ensures reply { result ≡ pack_reply reel }
    ensures told { pack_told result ≡ pack_said reel }
{
    check_packing(reel)?;
    Ok(words_of(reel))
}
