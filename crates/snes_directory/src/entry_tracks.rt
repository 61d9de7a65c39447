ghost use Rattle.std.specs.Prelude.{◌≡◌, ◌<◌, length, IfSome};
ghost use Rattle.adpcm_nums.specs.First.{first_where};
ghost use Rattle.snes_directory.specs.Reading.{IsImage};
ghost use Rattle.snes_directory.specs.EntryTracks.{blocks_in, is_long, track_at};

use crate::image::Image;
use player_model::{BrrTrack, TrackFault, brr_track, is_much};

impl Image {
    /// The number of its entries.
    pub fn entries(&self) -> u32
        requires { IsImage self.now }
        ensures { result ≡ length self.now.starts }
    {
        self.starts.as_slice().len() as u32
    }

    /// The track of an entry.
    pub fn track_at(&self, entry: u32) -> Result<BrrTrack<'_>, TrackFault>
        requires image { IsImage self.now }
        requires within { entry < length self.now.starts }
        ensures { result ≡ track_at self.now entry }
    {
        let i = entry as usize;
        let start = self.starts.as_slice()[i];
        let again = self.agains.as_slice()[i];
        brr_track(self.memory.as_slice(), start, again)
    }

    /// The number of an entry's blocks.
    pub fn blocks_at(&self, entry: u32) -> u32
        requires image { IsImage self.now }
        requires within { entry < length self.now.starts }
        ensures { result ≡ blocks_in (track_at self.now entry) }
    {
        match self.track_at(entry) {
            Ok(track) => track.blocks(),
            Err(_) => 0,
        }
    }

    /// The first entry of more blocks than are played, if there is one.
    #[tactic(auto, using(adpcm_nums::proofs::FirstLaws::none_at_zero, adpcm_nums::proofs::FirstLaws::none_more, adpcm_nums::proofs::FirstLaws::first_found))]
    pub fn first_long(&self) -> Option<u32>
        requires { IsImage self.now }
        ensures value { result ≡ first_where (is_long self.now) (length self.now.starts) }
        ensures within { IfSome result (λ i. i < length self.now.starts) }
    {
        for i in 0..self.entries() {
            if is_much(self.blocks_at(i), 16) {
                return Some(i);
            }
        }
        None
    }
}
