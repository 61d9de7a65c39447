//! SPU-ADPCM of the PlayStation's sound unit: decoding and spelling of blocks (PSX-SPX, SPU ADPCM samples).
#![tactic(auto)]

mod block;
mod decode;
mod filter;
mod floors;
mod image;
mod laws;
mod least;
mod levels;
mod machine;
mod nearest;
mod row;
mod sample;
mod step;
mod stored;
mod taken;

pub use block::{BadFilter, SpuBlock, read_block, spell_block};
pub use decode::decode_block;
pub use laws::{lanes_act_alike, spelled_is_read, spu_forgets, states_and_costs_fit};
pub use machine::Spu;
pub use step::spu_output;
pub use stored::{code_at, flags_at, head_at};
