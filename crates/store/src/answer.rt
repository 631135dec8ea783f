// An answer on its own: what number 12 asks of one that is to be stored.
ghost use Rattle.std.specs.Prelude.{◌≡◌};
ghost use Rattle.octets.specs.Numbers.{judgement};
ghost use Rattle.store.specs.Answer.{answer_number};

use catalog::AnswerName;
use octets::refusal::Refusal;
use octets::wire::ANSWER;

// 12 for an answer that does not begin 76 and a listed TREP, or under a second that may not be named.
pub fn check_answer(answer: &[u8], day: u32) -> Result<(), Refusal>
    ensures { judgement result ≡ answer_number answer.now day }
{
    if answer.len() < 2 {
        return Err(Refusal::NotInTable);
    }
    if answer[0] != ANSWER {
        return Err(Refusal::NotInTable);
    }
    catalog::check_name(AnswerName {
        trep: answer[1],
        day,
    })
}
