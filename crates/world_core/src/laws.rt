//! Laws of the world. The functions do nothing: their contracts are the laws.
ghost use Rattle.std.specs.Prelude.{List};
ghost use Rattle.ass_script.specs.Ranges.{IsScript};
ghost use Rattle.ass_script.specs.Scripts.{ScriptValue};
ghost use Rattle.bdf_font.specs.Fonts.{FontValue};
ghost use Rattle.world_core.specs.Keys.{world_meaning};
ghost use Rattle.world_core.specs.Laws.{LiveInAnyOrder, ShowTheSame};
ghost use Rattle.world_core.specs.Orders.{OrdersShowTheSame, RepliesTellHistory, RunsShowTheSame};
ghost use Rattle.world_core.specs.Records.{StepsAreRecorded};
ghost use Rattle.world_core.specs.Tellings.{WorldTag};

/// The order in which chunks came isn't seen: in whatever order new events are offered, the same are live then, and two looks that saw the
/// same events, in whatever order, show the same pixels. Neither are the caches: whoever shows, and whatever they keep.
pub fn order_of_arrival()
    ensures live { LiveInAnyOrder }
    ensures shown { (script : ScriptValue) (fonts : List FontValue) → IsScript script → ShowTheSame script fonts }
{}

/// The same of whole runs of steps: the replies tell the track's history, and where they tell of the same live events before two looks, the same
/// is shown at the same instant and size. So it is where the same new events are fed in two orders, with whatever other steps between.
pub fn order_of_steps()
    ensures told { (script : ScriptValue) (fonts : List FontValue) → RepliesTellHistory script fonts }
    ensures shown { (script : ScriptValue) (fonts : List FontValue) → IsScript script → RunsShowTheSame script fonts }
    ensures orders { (script : ScriptValue) (fonts : List FontValue) → IsScript script → OrdersShowTheSame script fonts }
{}

/// What is recorded after each list of steps from a new world. The shards' histories are those that these steps made, each by its
/// actor; so no key is filled or claimed twice in its shard without an eviction, or the claim's fail, between. And what an actor's last look saw are the
/// first entries of the track's history.
pub fn records()
    ensures { StepsAreRecorded {T = WorldTag} world_meaning }
{}
