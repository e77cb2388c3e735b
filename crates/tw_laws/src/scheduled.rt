// The law of schedules as lines of scripts.

ghost use Rattle.std.specs.Prelude.{ℕ};
ghost use Rattle.tw_generate.specs.Coming.{IsLedTo};
ghost use Rattle.tw_generate.specs.Schedules.{Trio, schedule};
ghost use Rattle.tw_laws.specs.ScheduledLines.{IsScriptRunOf};

use tw_base::Hasher;
use tw_generate::generate_laws;
use tw_msg::history_message_laws;
use tw_world::world_laws;

/// What a number's schedule leads to is what lines of a script lead to: so all that `world_laws` says of worlds holds of it, and of
/// the order in which its steps were recorded. The function itself does nothing.
pub fn scheduled_laws<H: Hasher>()
    // Where the schedule of a number, of up to 10,000 rounds, leads to three histories, lines of a script lead to a world of these
    // histories, and none of them is refused: lines that make the three services, and for each act the line that appends its
    // events, or those that send a message and deliver it.
    ensures runs { (number rounds : ℕ) (t : Trio) → IsLedTo H.dig number rounds t → IsScriptRunOf H.dig (schedule number rounds) t }
{
    // By the laws of schedules, of worlds, and of the messages of histories.
    generate_laws::<H>();
    world_laws::<H>();
    history_message_laws::<H>();
}
