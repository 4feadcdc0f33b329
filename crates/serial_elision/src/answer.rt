// The asks that the store answers.
ghost use Rattle.std.specs.Prelude.{◌≡◌, ℕ, IfOk};
ghost use Rattle.swan_model.specs.SerialState.{Activation};
ghost use Rattle.swan_model.specs.SerialStep.{effect};
ghost use Rattle.serial_elision.specs.Effects.{IsReply};

use crate::{Holding, OwnAsk, Reply, Store};
use swan_model::{Answer, Ask, FaultKind, NoMemory};

impl Store {
    /// Answers an ask of one who holds this, where it is about objects and queues at places, or about
    /// nothing. A Sync comes back as Synced, and any other ask as Own; neither has had an effect. `O(1)`
    /// amortised; a record shares its bytes.
    #[inline(always)]
    pub fn answer<L>(&mut self, holdings: &[Holding], ask: Ask<L>) -> Result<Reply<L>, NoMemory>
        ensures { (n : ℕ) (a : Activation L) → a.holdings ≡ holdings.now → IfOk result (λ reply.
            IsReply reply a self.old self.new ask (effect n self.old a ask)) }
    {
        match ask {
            Ask::Work => Ok(Reply::Told(Answer::Nothing)),
            Ask::Sync => Ok(Reply::Synced),
            Ask::Read(place) => match self.read(holdings, place)? {
                Some(value) => Ok(Reply::Told(Answer::Item(value))),
                None => Ok(Reply::Fault(FaultKind::Privilege)),
            },
            Ask::Write(place, value) => {
                if self.write(holdings, place, value) {
                    Ok(Reply::Told(Answer::Nothing))
                } else {
                    Ok(Reply::Fault(FaultKind::Privilege))
                }
            }
            Ask::Push(place, value) => {
                if self.push(holdings, place, value)? {
                    Ok(Reply::Told(Answer::Nothing))
                } else {
                    Ok(Reply::Fault(FaultKind::Privilege))
                }
            }
            Ask::Pop(place) => match self.pop(holdings, place) {
                Ok(item) => Ok(Reply::Told(Answer::Item(item))),
                Err(kind) => Ok(Reply::Fault(kind)),
            },
            Ask::Empty(place) => match self.test(holdings, place) {
                Some(is_empty) => Ok(Reply::Told(Answer::Flag(is_empty))),
                None => Ok(Reply::Fault(FaultKind::Privilege)),
            },
            Ask::NewQueue => Ok(Reply::Own(OwnAsk::NewQueue)),
            Ask::NewObject(value) => Ok(Reply::Own(OwnAsk::NewObject(value))),
            Ask::Spawn(child) => Ok(Reply::Own(OwnAsk::Spawn(child))),
            Ask::Finish => Ok(Reply::Own(OwnAsk::Finish)),
            Ask::Fail(trouble) => Ok(Reply::Own(OwnAsk::Fail(trouble))),
        }
    }
}
