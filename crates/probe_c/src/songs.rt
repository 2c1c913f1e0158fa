// The sum of all that a song's sheet shows, for the benchmark (bench/): whoever asks for it has every
// part of the song composed and arranged.
ghost use Rattle.std.specs.Prelude.{◌≡◌};
ghost use Rattle.probe.specs.Songs.{song_sum};

// The numbers on the sheet of a seed's song, but for its style and seed, summed, each f32 by its bits. An unknown
// style has the sum 0.
#[unsafe(no_mangle)]
pub extern "C" fn probe_song(style: u8, seed: u64) -> u64
    ensures { result ≡ song_sum style seed }
{
    probe::songs::probe_song(style, seed)
}
