// Tuples of forms as rows.
ghost use Rattle.std.specs.Prelude.{◌≡◌, option_map};
ghost use Rattle.document_forms.specs.found.Rows.{row1, row2, row3, row4, row5, row6, row7, row8, row9};

use crate::error::ReadError;
use crate::form::Form;
use crate::row::{End, Row, TakeRow, Then};
use crate::take::Take;
use serde_json::Value;
use std::alloc::Global;

impl<A: Form> Row for (A,) {
    type Items = (A::Item,);

    ghost Plain = { A.Plain };

    ghost view = { λ t. A.view t.0 };

    ghost form = { row1 A.form };

    fn read(alloc: Global, items: &[Value], index: usize) -> Result<(A::Item,), ReadError> {
        let (a, ()) = <Then<A, End> as Row>::read(alloc, items, index)?;
        Ok((a,))
    }
}

impl<A: Form, B: Form> Row for (A, B) {
    type Items = (A::Item, B::Item);

    ghost Plain = { A.Plain × B.Plain };

    ghost view = { λ t. (A.view t.0, B.view t.1) };

    ghost form = { row2 A.form B.form };

    fn read(alloc: Global, items: &[Value], index: usize) -> Result<(A::Item, B::Item), ReadError> {
        let (a, (b, ())) = <Then<A, Then<B, End>> as Row>::read(alloc, items, index)?;
        Ok((a, b))
    }
}

impl<A: Form, B: Form, C: Form> Row for (A, B, C) {
    type Items = (A::Item, B::Item, C::Item);

    ghost Plain = { A.Plain × B.Plain × C.Plain };

    ghost view = { λ t. (A.view t.0, B.view t.1, C.view t.2) };

    ghost form = { row3 A.form B.form C.form };

    fn read(
        alloc: Global,
        items: &[Value],
        index: usize,
    ) -> Result<(A::Item, B::Item, C::Item), ReadError> {
        let (a, (b, (c, ()))) = <Then<A, Then<B, Then<C, End>>> as Row>::read(alloc, items, index)?;
        Ok((a, b, c))
    }
}

impl<A: Form, B: Form, C: Form, D: Form> Row for (A, B, C, D) {
    type Items = (A::Item, B::Item, C::Item, D::Item);

    ghost Plain = { A.Plain × B.Plain × C.Plain × D.Plain };

    ghost view = { λ t. (A.view t.0, B.view t.1, C.view t.2, D.view t.3) };

    ghost form = { row4 A.form B.form C.form D.form };

    fn read(
        alloc: Global,
        items: &[Value],
        index: usize,
    ) -> Result<(A::Item, B::Item, C::Item, D::Item), ReadError> {
        let (a, (b, (c, (d, ())))) = <Then<A, Then<B, Then<C, Then<D, End>>>> as Row>::read(
            alloc, items, index,
        )?;
        Ok((a, b, c, d))
    }
}

impl<A: Form, B: Form, C: Form, D: Form, E: Form> Row for (A, B, C, D, E) {
    type Items = (A::Item, B::Item, C::Item, D::Item, E::Item);

    ghost Plain = { A.Plain × B.Plain × C.Plain × D.Plain × E.Plain };

    ghost view = { λ t. (A.view t.0, B.view t.1, C.view t.2, D.view t.3, E.view t.4) };

    ghost form = { row5 A.form B.form C.form D.form E.form };

    fn read(
        alloc: Global,
        items: &[Value],
        index: usize,
    ) -> Result<(A::Item, B::Item, C::Item, D::Item, E::Item), ReadError> {
        let (a, (b, (c, (d, (e, ()))))) = <Then<
            A,
            Then<B, Then<C, Then<D, Then<E, End>>>>,
        > as Row>::read(alloc, items, index)?;
        Ok((a, b, c, d, e))
    }
}

impl<A: Form, B: Form, C: Form, D: Form, E: Form, F: Form> Row for (A, B, C, D, E, F) {
    type Items = (A::Item, B::Item, C::Item, D::Item, E::Item, F::Item);

    ghost Plain = { A.Plain × B.Plain × C.Plain × D.Plain × E.Plain × F.Plain };

    ghost view = { λ t. (A.view t.0, B.view t.1, C.view t.2, D.view t.3, E.view t.4, F.view t.5) };

    ghost form = { row6 A.form B.form C.form D.form E.form F.form };

    fn read(
        alloc: Global,
        items: &[Value],
        index: usize,
    ) -> Result<(A::Item, B::Item, C::Item, D::Item, E::Item, F::Item), ReadError> {
        let (a, (b, (c, (d, (e, (f, ())))))) = <Then<
            A,
            Then<B, Then<C, Then<D, Then<E, Then<F, End>>>>>,
        > as Row>::read(alloc, items, index)?;
        Ok((a, b, c, d, e, f))
    }
}

impl<A: Form, B: Form, C: Form, D: Form, E: Form, F: Form, G: Form> Row for (A, B, C, D, E, F, G) {
    type Items = (
        A::Item,
        B::Item,
        C::Item,
        D::Item,
        E::Item,
        F::Item,
        G::Item,
    );

    ghost Plain = { A.Plain × B.Plain × C.Plain × D.Plain × E.Plain × F.Plain × G.Plain };

    ghost view = { λ t. (A.view t.0, B.view t.1, C.view t.2, D.view t.3, E.view t.4, F.view t.5, G.view t.6) };

    ghost form = { row7 A.form B.form C.form D.form E.form F.form G.form };

    fn read(
        alloc: Global,
        items: &[Value],
        index: usize,
    ) -> Result<
        (
            A::Item,
            B::Item,
            C::Item,
            D::Item,
            E::Item,
            F::Item,
            G::Item,
        ),
        ReadError,
    > {
        let (a, (b, (c, (d, (e, (f, (g, ()))))))) = <Then<
            A,
            Then<B, Then<C, Then<D, Then<E, Then<F, Then<G, End>>>>>>,
        > as Row>::read(alloc, items, index)?;
        Ok((a, b, c, d, e, f, g))
    }
}

impl<A: Take, B: Take, C: Take, D: Take, E: Take, F: Take, G: Take> TakeRow
    for (A, B, C, D, E, F, G) {
    fn take(
        alloc: Global,
        items: &mut [Value],
        index: usize,
    ) -> Result<
        (
            A::Item,
            B::Item,
            C::Item,
            D::Item,
            E::Item,
            F::Item,
            G::Item,
        ),
        ReadError,
    > {
        let (a, (b, (c, (d, (e, (f, (g, ()))))))) = <Then<
            A,
            Then<B, Then<C, Then<D, Then<E, Then<F, Then<G, End>>>>>>,
        > as TakeRow>::take(alloc, items, index)?;
        let taken = (a, b, c, d, e, f, g);
        Ok(taken)
    }
}

impl<A: Form, B: Form, C: Form, D: Form, E: Form, F: Form, G: Form, H: Form> Row
    for (A, B, C, D, E, F, G, H) {
    type Items = (
        A::Item,
        B::Item,
        C::Item,
        D::Item,
        E::Item,
        F::Item,
        G::Item,
        H::Item,
    );

    ghost Plain = { A.Plain × B.Plain × C.Plain × D.Plain × E.Plain × F.Plain × G.Plain × H.Plain };

    ghost view = { λ t. (A.view t.0, B.view t.1, C.view t.2, D.view t.3, E.view t.4, F.view t.5, G.view t.6, H.view t.7) };

    ghost form = { row8 A.form B.form C.form D.form E.form F.form G.form H.form };

    fn read(
        alloc: Global,
        items: &[Value],
        index: usize,
    ) -> Result<
        (
            A::Item,
            B::Item,
            C::Item,
            D::Item,
            E::Item,
            F::Item,
            G::Item,
            H::Item,
        ),
        ReadError,
    > {
        let (a, (b, (c, (d, (e, (f, (g, (h, ())))))))) = <Then<
            A,
            Then<B, Then<C, Then<D, Then<E, Then<F, Then<G, Then<H, End>>>>>>>,
        > as Row>::read(alloc, items, index)?;
        Ok((a, b, c, d, e, f, g, h))
    }
}

impl<A: Take, B: Take, C: Take, D: Take, E: Take, F: Take, G: Take, H: Take> TakeRow
    for (A, B, C, D, E, F, G, H) {
    fn take(
        alloc: Global,
        items: &mut [Value],
        index: usize,
    ) -> Result<
        (
            A::Item,
            B::Item,
            C::Item,
            D::Item,
            E::Item,
            F::Item,
            G::Item,
            H::Item,
        ),
        ReadError,
    > {
        let (a, (b, (c, (d, (e, (f, (g, (h, ())))))))) = <Then<
            A,
            Then<B, Then<C, Then<D, Then<E, Then<F, Then<G, Then<H, End>>>>>>>,
        > as TakeRow>::take(alloc, items, index)?;
        let taken = (a, b, c, d, e, f, g, h);
        Ok(taken)
    }
}

impl<A: Form, B: Form, C: Form, D: Form, E: Form, F: Form, G: Form, H: Form, I: Form> Row
    for (A, B, C, D, E, F, G, H, I) {
    type Items = (
        A::Item,
        B::Item,
        C::Item,
        D::Item,
        E::Item,
        F::Item,
        G::Item,
        H::Item,
        I::Item,
    );

    ghost Plain = { A.Plain × B.Plain × C.Plain × D.Plain × E.Plain × F.Plain × G.Plain × H.Plain × I.Plain };

    ghost view = { λ t. (A.view t.0, B.view t.1, C.view t.2, D.view t.3, E.view t.4, F.view t.5, G.view t.6, H.view t.7, I.view t.8) };

    ghost form = { row9 A.form B.form C.form D.form E.form F.form G.form H.form I.form };

    fn read(
        alloc: Global,
        items: &[Value],
        index: usize,
    ) -> Result<
        (
            A::Item,
            B::Item,
            C::Item,
            D::Item,
            E::Item,
            F::Item,
            G::Item,
            H::Item,
            I::Item,
        ),
        ReadError,
    > {
        let (a, (b, (c, (d, (e, (f, (g, (h, (i, ()))))))))) = <Then<
            A,
            Then<B, Then<C, Then<D, Then<E, Then<F, Then<G, Then<H, Then<I, End>>>>>>>>,
        > as Row>::read(alloc, items, index)?;
        Ok((a, b, c, d, e, f, g, h, i))
    }
}
