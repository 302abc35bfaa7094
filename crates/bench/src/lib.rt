// Reading a module, for the C program that times it.
#![tactic(auto)]

ghost use Rattle.std.specs.Prelude.{◌≡◌};
ghost use Rattle.codec.specs.Reading.{read_module};
ghost use Rattle.bench.specs.Counted.{count_of};

use codec::read_module;

// How many records the module has, or 0 where it is refused: C takes one number for both.
#[unsafe(no_mangle)]
pub extern "C" fn bench_read_module(bytes: &[u8]) -> u64
    ensures { result ≡ count_of (read_module bytes.now) }
{
    match read_module(bytes) {
        Ok(records) => records as u64,
        Err(_) => 0,
    }
}
