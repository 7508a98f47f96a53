//! How tests write acts and events.

/// An act: `Put 0` by link 0, `take 0 7` of a token by link 0 with the word 7, `0 to 4` where the packet at input 0 is bound to output
/// 4, `offer 1 on 0` and `want 1 on 0` of site 1 on channel 0.
macro_rules! act {
    (take $link:literal $word:literal) => {
        Act::Take {
            link: $link,
            word: $word,
        }
    };
    ($kind:ident $link:literal) => {
        Act::$kind { link: $link }
    };
    ($input:literal to $output:literal) => {
        Act::Route {
            input: $input,
            output: $output,
        }
    };
    (offer $site:literal on $chan:literal) => {
        Act::Proc(Move::Offer {
            site: $site,
            chan: $chan,
        })
    };
    (want $site:literal on $chan:literal) => {
        Act::Proc(Move::Want {
            site: $site,
            chan: $chan,
        })
    };
}

/// An event: the actor and its act.
macro_rules! event {
    ($actor:literal, $($act:tt)*) => {
        Event {
            actor: $actor,
            act: act!($($act)*),
        }
    };
}

pub(crate) use act;
pub(crate) use event;
