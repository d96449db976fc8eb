// Inner: how an exported call tells its answer: the number is returned, the place is stored.
#![tactic(auto)]

ghost use Rattle.told.specs.Told.{Told};

use answers::Refusal;

// The number is returned and the place is stored.
pub fn told<T>(answer: &Result<T, Refusal>, place: &mut usize) -> u32
    ensures { Told answer.now result place.new }
{
    let reply = answers::number_of(answer);
    *place = reply.place;
    reply.number as u32
}
