// What goes wrong in a call.
use px_ports::Pick;

/// Which calls of the host and the disk fail, each counted from 1, how many bytes the sink takes at once, and which image
/// of the disk is looked at then.
#[derive(Clone, Copy)]
pub(crate) struct Faults {
    pub(crate) fetch: Option<u32>,
    pub(crate) emit: Option<u32>,
    pub(crate) device: Option<u32>,
    /// After so many device calls each fails.
    pub(crate) stop: Option<u32>,
    pub(crate) image: Pick,
    pub(crate) piece: usize,
}

impl Faults {
    /// Nothing fails, the sink takes all, and what a read gives is looked at.
    pub(crate) const NONE: Faults = Faults {
        fetch: None,
        emit: None,
        device: None,
        stop: None,
        image: Pick::Reads,
        piece: usize::MAX,
    };

    /// The faults that are spelled so, as `fetch=1 emit=2 device=3 stop=4 image=stable piece=5`, each of which may be left
    /// out; None where something else stands there.
    pub(crate) fn spelled_by(spelled: &str) -> Option<Faults> {
        let mut faults = Faults::NONE;
        for word in spelled.split_whitespace() {
            let (place, spelled) = word.split_once('=')?;
            if place == "image" {
                faults.image = pick_of(spelled)?;
                continue;
            }
            let number: u32 = spelled.parse().ok()?;
            match place {
                "fetch" => faults.fetch = Some(number),
                "emit" => faults.emit = Some(number),
                "device" => faults.device = Some(number),
                "stop" => faults.stop = Some(number),
                "piece" => faults.piece = number as usize,
                _ => return None,
            }
        }
        Some(faults)
    }
}

// The image that a word or the number of a byte picks.
fn pick_of(word: &str) -> Option<Pick> {
    match word {
        "stable" => Some(Pick::Stable),
        "reads" => Some(Pick::Reads),
        byte => Some(Pick::Fill(byte.parse().ok()?)),
    }
}
