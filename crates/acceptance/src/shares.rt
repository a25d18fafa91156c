//! Effective mins in many small trees, with recursive protection and without. They are compared with the rule, which is
//! written here a second time. The groups are `/p`, below it `/p/a` and `/p/b`, and `/p/a/c`.

use crate::case::prints_all;
use std::alloc::{AllocError, Global};
use std::process::Abort;
use std::test::Fail;

/// A number of pages for each group.
#[derive(Clone, Copy)]
struct Numbers {
    p: u128,
    a: u128,
    b: u128,
    c: u128,
}

/// What there is to share below a group: its effective min, its usage, and what its children claim together.
#[derive(Clone, Copy)]
struct Parent {
    min: u128,
    uses: u128,
    asked: u128,
}

/// The share of a child that uses `uses` and claims `own` of that.
fn share(recursive: bool, parent: Parent, uses: u128, own: u128) -> u128 {
    if parent.asked > parent.min {
        let part = own.saturating_mul(parent.min);
        return part.checked_div(parent.asked).unwrap_or(0);
    }
    if !recursive || parent.uses <= parent.asked || uses <= own {
        return own;
    }
    let left = parent.min.saturating_sub(parent.asked);
    let beyond = parent.uses.saturating_sub(parent.asked);
    let part = left.saturating_mul(uses.saturating_sub(own));
    own.saturating_add(part.checked_div(beyond).unwrap_or(0))
}

/// What `/p/a`, `/p/b` and `/p/a/c` have for the root, as `prot` prints it. `/p` has its whole min.
fn printed(
    alloc: Global,
    recursive: bool,
    uses: Numbers,
    min: Numbers,
) -> Result<String, AllocError> {
    let own_of_a = uses.a.min(min.a);
    let own_of_b = uses.b.min(min.b);
    let own_of_c = uses.c.min(min.c);
    let p = Parent {
        min: min.p,
        uses: uses.p,
        asked: own_of_a.saturating_add(own_of_b),
    };
    let of_a = share(recursive, p, uses.a, own_of_a);
    let of_b = share(recursive, p, uses.b, own_of_b);
    let a = Parent {
        min: of_a,
        uses: uses.a,
        asked: own_of_c,
    };
    let of_c = share(recursive, a, uses.c, own_of_c);
    let of_a = of_a.saturating_mul(4096);
    let of_b = of_b.saturating_mul(4096);
    let of_c = of_c.saturating_mul(4096);
    format!(in alloc; "{of_a}\n{of_b}\n{of_c}\n")
}

/// The lines that set these mins, and ask for what is printed after that. A page is 4K.
fn asked(alloc: Global, min: Numbers) -> Result<String, AllocError> {
    let p = min.p.saturating_mul(4);
    let a = min.a.saturating_mul(4);
    let b = min.b.saturating_mul(4);
    let c = min.c.saturating_mul(4);
    format!(in alloc;
        "\
set /p memory.min {p}K
set /p/a memory.min {a}K
set /p/b memory.min {b}K
set /p/a/c memory.min {c}K
prot / /p/a
prot / /p/b
prot / /p/a/c
"
    )
}

/// The lines that make the groups. `/p/b` and `/p/a/c` use these numbers of pages, and `/p` itself uses those that a
/// removed group had.
fn made(alloc: Global, header: &str, b: u32, c: u32, removed: u32) -> Result<String, AllocError> {
    format!(in alloc;
        "\
{header}group /p
group /p/a
group /p/b
group /p/x
group /p/a/c
task 1 /p/a/c
task 2 /p/b
task 3 /p/x
1 write {{1-{c}}} 0 1
2 write {{1-{b}}} 0 1
3 write {{1-{removed}}} 0 1
attach 3 /
rmdir /p/x
"
    )
}

// With mins of 0 to 8 for `/p`, of 0, 2 and 4 for `/p/a`, of 0 and 3 for `/p/b`, and of 0 to 2 for `/p/a/c`.
fn is_shared<R: Abort + AllocGlobal>(
    rt: &R,
    recursive: bool,
    b: u32,
    c: u32,
    removed: u32,
) -> Result<(), Fail> {
    let alloc = rt.alloc();
    let all = u128::from(b).saturating_add(u128::from(c));
    let uses = Numbers {
        p: all.saturating_add(u128::from(removed)),
        a: u128::from(c),
        b: u128::from(b),
        c: u128::from(c),
    };
    let header = if recursive { "recursiveprot\n" } else { "" };
    let mut script = made(alloc, header, b, c, removed)?;
    let mut out = String::new(alloc);
    for n in 0..162u32 {
        let min = Numbers {
            p: u128::from(n % 9),
            a: u128::from(n / 9 % 3).saturating_mul(2),
            b: u128::from(n / 27 % 2).saturating_mul(3),
            c: u128::from(n / 54),
        };
        script.push_str(&asked(alloc, min)?)?;
        out.push_str(&printed(alloc, recursive, uses, min)?)?;
    }
    let name = format!(in alloc; "{header}{b} and {c} pages, and {removed} of the parent's own")?;
    prints_all(rt, &name, &script, &out);
    Ok(())
}

// With the word, the rest is shared too. Without it, only what the children claim is shared.
#[test]
fn what_children_have_is_shared_by_the_rule(rt: HostRuntime) -> Result<(), Fail> {
    for recursive in [true, false] {
        is_shared(&rt, recursive, 3, 5, 0)?;
        is_shared(&rt, recursive, 3, 5, 2)?;
        is_shared(&rt, recursive, 0, 3, 1)?;
        is_shared(&rt, recursive, 4, 1, 0)?;
    }
    Ok(())
}
