// What a call answers, on its way to C: a code, and numbers in a lent buffer.
#![tactic(auto)]

ghost use Rattle.std.specs.Prelude.{◌≡◌, ◌<◌, List, ℤ, pos};
ghost use Rattle.cubemap.specs.Interface.{put_at, put_all};
ghost use Rattle.cubemap.specs.Outcomes.{written, score_values, fold_values, equal_values, look_up_values};
ghost use Rattle.cubemap.specs.Promises.{Gives};
ghost use Rattle.answers.specs.Answered.{answered};

use cubemap::{Located, Refusal, Rotation, Sums};

// ---- numbers in a lent buffer: eight bytes each, two's complement, little-endian

// Number k of the buffer becomes v, where it fits whole.
#[tactic(auto, unfolding(cubemap::specs::Interface::put_at))]
fn put(buffer: &mut [u8], k: usize, v: u64)
    requires { k < 4096 }
    ensures { buffer.new ≡ put_at buffer.old k (pos v) }
{
    if 8 * k + 8 <= buffer.len() {
        buffer[8 * k..8 * k + 8].copy_from_slice(&v.to_le_bytes());
    }
}

// The same of a signed number. (Each call names its numbers one by one, and so their kinds: a trait would say no more.)
fn put_signed(buffer: &mut [u8], k: usize, v: i64)
    requires { k < 4096 }
    ensures { buffer.new ≡ put_at buffer.old k v }
{
    put(buffer, k, v.cast_unsigned());
}

// ---- the values of each call

// What an accepted call has to say, as numbers.
pub trait Values {
    ghost values: { Self → List ℤ };

    // Writes the numbers, one behind the other.
    fn put_values(self, buffer: &mut [u8])
        ensures { buffer.new ≡ put_all buffer.old 0 (values self) };
}

#[tactic(auto, unfolding(cubemap::specs::Interface::put_all))]
impl Values for Sums {
    ghost values = { λ s. score_values s.errors s.weights };

    fn put_values(self, buffer: &mut [u8]) {
        put(buffer, 0, self.errors);
        put(buffer, 1, self.weights);
    }
}

#[tactic(auto, unfolding(cubemap::specs::Interface::put_all))]
impl Values for Rotation {
    ghost values = { fold_values };

    fn put_values(self, buffer: &mut [u8]) {
        put_signed(buffer, 0, self.e0);
        put_signed(buffer, 1, self.e1);
        put_signed(buffer, 2, self.e2);
        put_signed(buffer, 3, self.e3);
    }
}

#[tactic(auto, unfolding(cubemap::specs::Interface::put_all))]
impl Values for bool {
    ghost values = { equal_values };

    fn put_values(self, buffer: &mut [u8]) {
        put(buffer, 0, u64::from(self));
    }
}

#[tactic(auto, unfolding(cubemap::specs::Interface::put_all))]
impl Values for Located {
    ghost values = { look_up_values };

    fn put_values(self, buffer: &mut [u8]) {
        put(buffer, 0, self.face);
        put_signed(buffer, 1, self.column);
        put_signed(buffer, 2, self.row);
    }
}

// ---- the end of a call

// Writes the values of an accepted call and gives 0; gives the code of a refusal.
#[tactic(auto, unfolding(cubemap::specs::Interface::put_all))]
pub fn answer<T: Values>(outcome: Result<T, Refusal>, buffer: &mut [u8]) -> u64
    ensures { Gives (written (answered T.values outcome) buffer.old) result buffer.new }
{
    match outcome {
        Ok(values) => {
            values.put_values(buffer);
            0
        }
        Err(refused) => u64::from(refused),
    }
}
