// A turn with the marker beside the counts: handed in and back by value, and lent as one record.
#![tactic(auto)]

ghost use Rattle.std.specs.Prelude.{◌≡◌, ◌++◌, length, take};
ghost use Rattle.parlog.specs.Limits.{small};
ghost use Rattle.parlog.specs.Load.{load_of};
ghost use Rattle.parlog.specs.Tables.{head_size, marker_last, marker_steps};
ghost use Rattle.turn_forms.specs.Away.{away_of};
ghost use Rattle.turn_forms.specs.Turned.{marker_bytes, TurnedSays, turned_from};

use parlog::{Answer, Marker, Move, Refusal, codes};

// What a turn hands back: the marker and the answer.
#[derive(Clone, Copy)]
pub struct Turned {
    pub last: u16,
    pub steps: u32,
    pub answer: Answer<Move>,
}

// The counts, and the marker behind them, as a head.
fn join_head(counts: &[u8], last: u16, steps: u32) -> [u8; 10]
    requires { length counts.now ≡ 4 }
    ensures { result ≡ counts.now ++ marker_bytes (record { last = last; steps = steps }) }
{
    let last = last.to_le_bytes();
    let steps = steps.to_le_bytes();
    [
        counts[0], counts[1], counts[2], counts[3], last[0], last[1], steps[0], steps[1], steps[2],
        steps[3],
    ]
}

// The counts become those of the head.
fn put_counts(counts: &mut [u8], head: &[u8])
    requires { (length counts.old ≡ 4) × (length head.now ≡ head_size) }
    ensures { counts.new ≡ take 4 head.now }
{
    counts.copy_from_slice(&head[..4]);
}

// The refusal of a call whose counts have another size: the image's comes first.
fn turned_away(image: &[u8]) -> Refusal
    ensures { result ≡ away_of (load_of image.now) }
{
    let l = load::load(image);
    let Ok(_) = l else {
        return load::refusal(l);
    };
    Refusal {
        number: codes::STATE,
        offset: 0,
    }
}

// The marker in a head, and the answer.
fn hand_back(head: &[u8], answer: Answer<Move>) -> Turned
    requires { length head.now ≡ head_size }
    ensures { result ≡ turned_from (record { last = marker_last head.now; steps = marker_steps head.now }) answer }
{
    let last = head::marker_last(head);
    let steps = head::marker_steps(head);
    Turned {
        last: last as u16,
        steps,
        answer,
    }
}

// The turn with the marker by value.
pub fn turn_core(
    image: &[u8],
    counts: &mut [u8],
    procs: &mut [u8],
    vars: &mut [u8],
    last: u16,
    steps: u32,
) -> Turned
    ensures { TurnedSays small image.now counts.old procs.old vars.old (record { last = last; steps = steps }) result counts.new procs.new vars.new }
{
    if counts.len() != 4 {
        let f = turned_away(image);
        return Turned {
            last,
            steps,
            answer: Err(f),
        };
    }
    let mut head = join_head(counts, last, steps);
    let answer = run::turn(image, &mut head, procs, vars);
    put_counts(counts, &head);
    hand_back(&head, answer)
}

// ---- the marker lent

// A turn; the marker is read before it and written after it.
pub fn turn(
    image: &[u8],
    counts: &mut [u8],
    procs: &mut [u8],
    vars: &mut [u8],
    marker: &mut Marker,
) -> Answer<Move>
    ensures { TurnedSays small image.now counts.old procs.old vars.old marker.old (turned_from marker.new result) counts.new procs.new vars.new }
{
    let t = turn_core(image, counts, procs, vars, marker.last, marker.steps);
    marker.last = t.last;
    marker.steps = t.steps;
    t.answer
}
