//! The loops over the lists of the grammar. The function in which one stands says what is read.

// Things that begin so, one after another, and the tokens after them; `$one` reads one at the tokens `$rest`. With the depth of the deepest.
macro_rules! several {
    ($alloc:ident, $end:ident, $tokens:ident, $begins:ident, |$rest:ident| $one:expr) => {{
        let mut found = Vec::new($alloc);
        let mut depth: usize = 0;
        let mut $rest = $tokens.same();
        for _turn in 0..$tokens.turns() {
            if !$begins($crate::token::next(&$rest)) {
                return Ok(($crate::token::listed(found), depth, $rest));
            }
            let (x, at, after) = $one?;
            found.push(x)?;
            depth = depth.max(at);
            $rest = after;
        }
        Err($crate::token::unexpected($end, &$rest))
    }};
}

// The same of parts without depth.
macro_rules! several_parts {
    ($alloc:ident, $end:ident, $tokens:ident, $begins:ident, |$rest:ident| $one:expr) => {{
        let mut found = Vec::new($alloc);
        let mut $rest = $tokens.same();
        for _turn in 0..$tokens.turns() {
            if !$begins($crate::token::next(&$rest)) {
                return Ok(($crate::token::listed(found), $rest));
            }
            let (x, after) = $one?;
            found.push(x)?;
            $rest = after;
        }
        Err($crate::token::unexpected($end, &$rest))
    }};
}

// One thing or more, parted by commas and ended by a bracket. Most lists have one.
macro_rules! parted {
    ($alloc:ident, $end:ident, $tokens:ident, |$rest:ident| $one:expr) => {{
        let mut found = Vec::with_capacity($alloc, 1)?;
        let mut depth: usize = 0;
        let mut $rest = $tokens.same();
        for _turn in 0..$tokens.turns() {
            let (x, at, after) = $one?;
            found.push(x)?;
            depth = depth.max(at);
            if $crate::token::sees(plcx_st::Terminal::Comma, &after) {
                $rest = $crate::token::behind(&after);
            } else {
                let after = $crate::token::expect($end, plcx_st::Terminal::Close, &after)?;
                return Ok(($crate::token::listed(found), depth, after));
            }
        }
        Err($crate::token::unexpected($end, &$rest))
    }};
}

pub(crate) use parted;
pub(crate) use several;
pub(crate) use several_parts;
