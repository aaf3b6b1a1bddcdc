ghost use Rattle.std.specs.Prelude.{◌≡◌, ◌≢◌, ◌<◌, ℕ, Bool, true, false, List, [], ◌∷◌, ◌++◌, Ok};
ghost use Rattle.std.specs.Prelude.{unwrap_or};
ghost use Rattle.apdu_codec.specs.Answer.{status_alone};
ghost use Rattle.apdu_codec.specs.Command.{Apdu};
ghost use Rattle.isdr_codec.specs.Request.{request_of};
ghost use Rattle.isdr_codec.specs.declared.request.Request.{Request};
ghost use Rattle.isdr_commands.specs.Request.{answer_to};
ghost use Rattle.isdr_commands.specs.declared.moves.Move.{Move};
ghost use Rattle.record_codec.specs.declared.durable.Heads.{Heads};
ghost use Rattle.uicc_channels.specs.Accepted.{is_accepted};
ghost use Rattle.card_core.specs.Desk.{desk_outcome, desk_with, exchange_at, moves_at};
ghost use Rattle.card_core.specs.DeskOutcome.{desk_answer};
ghost use Rattle.card_core.specs.Exchange.{idle, uncollected};
ghost use Rattle.card_core.specs.GetResponse.{get_response, given};
ghost use Rattle.card_core.specs.Laws.{BringsBlock, IsDeskRefusal, IsWithinLimits, collection_of};
ghost use Rattle.card_core.specs.Laws.{joined};
ghost use Rattle.card_core.specs.StoreData.{requested, store_data};
ghost use Rattle.card_core.specs.declared.desk.Desk.{Desk};
ghost use Rattle.card_core.specs.declared.exchange.Exchange.{Exchange};

use apdu_codec::Sw;

/// A request in blocks is what its blocks are joined. Each block but the last is answered `9000`
/// and joins those before; with the last one the request is answered.
pub fn blocks_make_one_request()
    ensures more { (exchange : Exchange) (heads : Heads) (busy : List Bool) (port : ℕ) (c : Apdu)
        (blocks : List (List ℕ)) → exchange.collection ≡ collection_of blocks
        → BringsBlock blocks 0x11 c
        → store_data exchange heads busy port c ≡ desk_answer (status_alone Sw.OK)
        (record { collection = collection_of (blocks ++ c.body ∷ []); unsent = [] }) }
    ensures last { (exchange : Exchange) (heads : Heads) (busy : List Bool) (port : ℕ) (c : Apdu)
        (blocks : List (List ℕ)) → exchange.collection ≡ collection_of blocks
        → BringsBlock blocks 0x91 c
        → store_data exchange heads busy port c ≡ requested exchange heads busy port
        (unwrap_or c.le 0) (request_of (joined (blocks ++ c.body ∷ []))) }
{}

/// A reply is given in order and whole: what an answer has and what is left after it are what was
/// left before it, and with `9000` nothing is left.
pub fn replies_are_given_in_order()
    ensures begun { (exchange : Exchange) (heads : Heads) (busy : List Bool) (port le : ℕ)
        (request : Request)
        → (requested exchange heads busy port le (Ok request)).answer.body
        ++ (requested exchange heads busy port le (Ok request)).exchange.unsent
        ≡ answer_to heads busy port request }
    ensures continued { (exchange : Exchange) (c : Apdu)
        → (get_response exchange c).answer.body ++ (get_response exchange c).exchange.unsent
        ≡ exchange.unsent }
    ensures ended { (exchange : Exchange) (le : ℕ) → (given exchange le).answer.sw ≡ Sw.OK
        → (given exchange le).exchange.unsent ≡ [] }
{}

/// A command that isn't accepted leaves the unsent reply on its channel, records nothing and moves
/// no port.
pub fn refused_commands_keep_the_reply()
    ensures { (desk : Desk) (heads : Heads) (busy : List Bool) (port : ℕ) (c : Apdu)
        → is_accepted (desk_outcome desk heads busy port c).answer.sw ≡ false
        → IsDeskRefusal (exchange_at desk c.channel) (desk_outcome desk heads busy port c) }
{}

/// No more than 256 blocks and 4,096 bytes of a request are ever kept.
pub fn requests_stay_within_their_limits()
    ensures { (desk : Desk) (heads : Heads) (busy : List Bool) (port : ℕ) (c : Apdu)
        → c.p2 < 256 → IsWithinLimits (exchange_at desk c.channel)
        → IsWithinLimits (desk_outcome desk heads busy port c).exchange }
{}

/// What a command does on one channel leaves what is under way on another alone, unless the port
/// itself moves: then nothing is under way there.
pub fn channels_stand_apart()
    ensures stays { (desk : Desk) (port channel other : ℕ) (moves : List Move)
        (exchange : Exchange) → other ≢ channel → moves_at port moves ≡ false
        → exchange_at (desk_with desk port channel moves exchange) other
        ≡ exchange_at desk other }
    ensures ends { (desk : Desk) (port channel other : ℕ) (moves : List Move)
        (exchange : Exchange) → other ≢ channel → moves_at port moves ≡ true
        → exchange_at (desk_with desk port channel moves exchange) other ≡ idle }
{}
