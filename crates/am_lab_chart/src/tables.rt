//! What is the same in every picture: the style sheet, the shapes of the signs, and the legend.

ghost use Rattle.std.specs.Prelude.{◌≡◌, ◌≤◌, ◌+◌, ◌++◌, IfOk, OnOk};
ghost use Rattle.am_lab_chart.specs.Legends as legends;
ghost use Rattle.am_lab_chart.specs.Tables as tables;
ghost use Rattle.am_lab_xml.specs.Trees.{printed};

use crate::legends::Meaning::{Bar, Fate, Sign, Way};
use crate::legends::put_meanings;
use am_lab_picture::Picture;
use std::alloc::{AllocError, Global};

/// The style sheet: colours that colour-blind people can tell, by class.
pub const STYLE: &str = "\
    text{fill:currentColor;paint-order:stroke;stroke:#fff;stroke-width:2.5px}\
    line,path{fill:none;stroke:currentColor;stroke-width:1.5}.small line,.small>path{stroke-width:.6}\
    rect{fill:currentColor;stroke:#777;stroke-width:.5}\
    .area{fill:currentColor;stroke:#fff;stroke-width:.7}.page,.band{stroke:none}.page{color:#fff}\
    .band{color:#f3f5f8}.lane{color:#9aa5ae;stroke-dasharray:1 2;stroke-width:1}\
    .head,.again,.in-frame,.in-sign{text-anchor:middle}.head,.again{font-weight:bold}.in-sign{stroke:none;color:#fff}\
    .in-frame{pointer-events:none}\
    .line-number{color:#888;text-anchor:end;stroke:none}.plain,.in-frame,.head,.again{color:#444}\
    .ran{color:#0067a5}.returned{color:#c23b00}.unknown{color:#8e3b96}.unknown-but-ran{color:#8a6500}\
    .pending{color:#66717c}.frame{color:#f2cf66}.draining{color:#d98b00}.host,.direct{color:#dfe4e8}\
    .disk{color:#87929d}.records{color:#9cc3e6;stroke:none}.received{color:#dca6c8;stroke:none}";

/// The shapes of the signs, and an arrow head for each class of messages. `[name(area)edge]` is a shape, of which the area
/// is filled and the edge only stroked, `{name:class}` an arrow head; `spelled` of `specs/Shapes.antt` says what each of
/// these bytes stands for.
pub const DEFINITIONS: &str = "<defs>\
    [request(M-6-5L6 0L-6 5z)M0 0]\
    [run(M-7 0a7 7 0 1 0 14 0a7 7 0 1 0-14 0z)M0 0]\
    [notice(M-6-6h12v12h-12z)M0 0]\
    [refused(M0 0)M-5-5L5 5M-5 5L5-5]\
    [blocked(M-8-2h16v4h-16z)M0 0]\
    [given-up(M-6 0L0-6L6 0L0 6z)M0 0]\
    [closed(M0 0)M-9-2h18M-9 2h18]\
    [wanted(M-5 3L0-5L5 3z)M0 0]\
    [done(M-3 0a3 3 0 1 0 6 0a3 3 0 1 0-6 0z)M0 0]\
    [nothing(M0 0)M-3 0a3 3 0 1 0 6 0a3 3 0 1 0-6 0z]\
    [moved(M0 0)M-10 0h20]\
    [failed(M0 0)M-10 0h20M-4-5l8 10M-4 5l8-10]\
    [time-out(M0 0)M-5 0a5 5 0 1 0 10 0a5 5 0 1 0-10 0zM0-3V0h3]\
    [lost-right(M16 4l1.5-1.5l3.5 3.5l3.5-3.5l1.5 1.5l-3.5 3.5l3.5 3.5l-1.5 1.5l-3.5-3.5l-3.5 3.5l-1.5-1.5l3.5-3.5z)M0 0L18 6.5]\
    [lost-left(M-16 4l-1.5-1.5l-3.5 3.5l-3.5-3.5l-1.5 1.5l3.5 3.5l-3.5 3.5l1.5 1.5l3.5-3.5l3.5 3.5l1.5-1.5l-3.5-3.5z)M0 0L-18 6.5]\
    [taken(M0 0)M0 0]\
    [arrived(M0 0)M0 0]\
    [stopped(M0 0)M0-6v12]\
    [settled(M0 0)M-5 0l4 4l6-8]\
    [requeued(M0 0)M4 2a4 4 0 1 1 0-4M5-6v4h-4]\
    [came-back(M0 0)M-4-4l8 8M-4 4l8-8]\
    [timed-out(M0 0)M-3-3a3 3 0 1 1 4 2.8c-1 .4-1 1-1 2M0 4v1.5]\
    [no-fate(M0 0)M-3 0h6]\
    [fate-ran(M0 0)M-5 0l4 4l6-8]\
    [fate-returned(M0 0)M-4-4l8 8M-4 4l8-8]\
    [fate-unknown(M0 0)M-3-3a3 3 0 1 1 4 2.8c-1 .4-1 1-1 2M0 4v1.5]\
    [fate-unknown-but-ran(M0 0)M-6-3a3 3 0 1 1 4 2.8c-1 .4-1 1-1 2M-3 4v1.5M1 2l2 2l4-6]\
    [fate-pending(M0 0)M-5 0h2M-1 0h2M3 0h2]\
    [box(M-6-6h12v12h-12z)M0 0]\
    [way(M0 0)M-12 0h24]\
    {head-plain:plain}\
    {head-ran:ran}\
    {head-returned:returned}\
    {head-unknown:unknown}\
    {head-unknown-but-ran:unknown-but-ran}\
    {head-pending:pending}\
    </defs>";

/// Appends what the legend says of fates, as far as it occurs.
#[tactic(auto, unfolding(crate::specs::Tables::fate_meanings))]
pub(crate) fn put_fate_meanings(
    out: &mut Vec<u8>,
    alloc: Global,
    picture: &Picture,
    y: u64,
) -> Result<u64, AllocError>
    requires { y ≤ 60000 }
    ensures drawn { OnOk result (out.new.items ≡ out.old.items ++ printed (legends.meanings picture.now 20 y tables.fate_meanings)) }
    ensures next { IfOk result (λ next. next ≡ legends.below picture.now y tables.fate_meanings) }
    ensures low { IfOk result (λ next. next ≤ y + 24) }
{
    put_meanings(
        out,
        alloc,
        picture,
        y,
        &[
            Fate("ran", "#fate-ran", 49, "ran"),
            Fate("returned", "#fate-returned", 75, "returned"),
            Fate("unknown", "#fate-unknown", 70, "unknown"),
            Fate(
                "unknown-but-ran",
                "#fate-unknown-but-ran",
                117,
                "unknown, but ran",
            ),
            Fate("pending", "#fate-pending", 70, "pending"),
            Fate(
                "plain",
                "#no-fate",
                226,
                "no message, or none that was accepted",
            ),
        ],
    )
}

/// Appends what the legend says of bars, as far as it occurs.
#[tactic(auto, unfolding(crate::specs::Tables::bar_meanings))]
pub(crate) fn put_bar_meanings(
    out: &mut Vec<u8>,
    alloc: Global,
    picture: &Picture,
    y: u64,
) -> Result<u64, AllocError>
    requires { y ≤ 60000 }
    ensures drawn { OnOk result (out.new.items ≡ out.old.items ++ printed (legends.meanings picture.now 20 y tables.bar_meanings)) }
    ensures next { IfOk result (λ next. next ≡ legends.below picture.now y tables.bar_meanings) }
    ensures low { IfOk result (λ next. next ≤ y + 24) }
{
    put_meanings(
        out,
        alloc,
        picture,
        y,
        &[
            Bar("frame", 153, "in a frame (its number)"),
            Bar("draining", 75, "draining"),
            Bar("host", 91, "on the host"),
            Bar("disk", 70, "on disk"),
            Bar("direct", 143, "on the direct network"),
            Bar("records", 200, "records of requests that are out"),
            Bar("received", 153, "received and not polled"),
        ],
    )
}

/// Appends what the legend says of calls, as far as it occurs.
#[tactic(auto, unfolding(crate::specs::Tables::call_meanings))]
pub(crate) fn put_call_meanings(
    out: &mut Vec<u8>,
    alloc: Global,
    picture: &Picture,
    y: u64,
) -> Result<u64, AllocError>
    requires { y ≤ 60000 }
    ensures drawn { OnOk result (out.new.items ≡ out.old.items ++ printed (legends.meanings picture.now 20 y tables.call_meanings)) }
    ensures next { IfOk result (λ next. next ≡ legends.below picture.now y tables.call_meanings) }
    ensures low { IfOk result (λ next. next ≤ y + 24) }
{
    put_meanings(
        out,
        alloc,
        picture,
        y,
        &[
            Sign("#request", 71, "request"),
            Sign("#run", 122, "run (its handler)"),
            Sign("#notice", 65, "notice"),
            Sign("#refused", 98, "refused call"),
            Sign("#blocked", 132, "no room for a reply"),
            Sign("#given-up", 78, "given up"),
            Sign("#closed", 65, "closed"),
        ],
    )
}

/// Appends what the legend says of other events, as far as it occurs.
#[tactic(auto, unfolding(crate::specs::Tables::event_meanings))]
pub(crate) fn put_event_meanings(
    out: &mut Vec<u8>,
    alloc: Global,
    picture: &Picture,
    y: u64,
) -> Result<u64, AllocError>
    requires { y ≤ 60000 }
    ensures drawn { OnOk result (out.new.items ≡ out.old.items ++ printed (legends.meanings picture.now 20 y tables.event_meanings)) }
    ensures next { IfOk result (λ next. next ≡ legends.below picture.now y tables.event_meanings) }
    ensures low { IfOk result (λ next. next ≤ y + 24) }
{
    put_meanings(
        out,
        alloc,
        picture,
        y,
        &[
            Sign("#done", 54, "done"),
            Sign("#nothing", 131, "nothing came of it"),
            Sign("#moved", 64, "moved"),
            Sign("#failed", 101, "device failed"),
            Sign("#time-out", 75, "time-out"),
            Sign("#wanted", 65, "wanted"),
        ],
    )
}

/// Appends what the legend says of packets, and of what their sources are told, as far as it occurs.
#[tactic(auto, unfolding(crate::specs::Tables::way_meanings))]
pub(crate) fn put_way_meanings(
    out: &mut Vec<u8>,
    alloc: Global,
    picture: &Picture,
    y: u64,
) -> Result<u64, AllocError>
    requires { y ≤ 60000 }
    ensures drawn { OnOk result (out.new.items ≡ out.old.items ++ printed (legends.meanings picture.now 20 y tables.way_meanings)) }
    ensures next { IfOk result (λ next. next ≡ legends.below picture.now y tables.way_meanings) }
    ensures low { IfOk result (λ next. next ≤ y + 24) }
{
    put_meanings(
        out,
        alloc,
        picture,
        y,
        &[
            Way("none", 90, "request"),
            Way("9 3", 80, "reply"),
            Way("2 3", 85, "answer"),
            Sign("#lost-left", 106, "never received"),
            Sign("#stopped", 101, "refused there"),
            Sign("#settled", 106, "accepted there"),
            Sign("#requeued", 75, "put back"),
            Sign("#came-back", 75, "returned"),
            Sign("#timed-out", 70, "unknown"),
        ],
    )
}
