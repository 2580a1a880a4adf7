//! Traces of good and of bad input, against texts worked out elsewhere.
#![tactic(auto)]

#[cfg(test)]
mod tests {
    use std::alloc::Global;
    use std::process::Abort;
    use std::test::Fail;
    use walk_trace::trace::trace;

    // What is printed before the walk of the torus with one puncture is read.
    const ONE: &str = "torus, m = 1, E = 3\nstart\n  0 2 5\n  1 3 4\n";

    // The whole text.
    fn says(rt: &impl Abort, heap: Global, input: &[u8], text: &str) -> Result<(), Fail> {
        says_as(rt, heap, input, text, "the trace")
    }

    // The same, with what the case shows.
    fn says_as(
        rt: &impl Abort,
        heap: Global,
        input: &[u8],
        text: &str,
        why: &str,
    ) -> Result<(), Fail> {
        let traced = trace(heap, input)?;
        assert_eq!(rt; traced.as_str(), text, "{why}");
        Ok(())
    }

    // The text after the start of the torus with one puncture.
    fn goes_on(rt: &impl Abort, heap: Global, walk: &[u8], text: &str) -> Result<(), Fail> {
        goes_on_as(rt, heap, walk, text, "the trace")
    }

    fn goes_on_as(
        rt: &impl Abort,
        heap: Global,
        walk: &[u8],
        text: &str,
        why: &str,
    ) -> Result<(), Fail> {
        let mut input = [0u8, 1, 0x54].to_vec(heap)?;
        input.extend_from_slice(walk)?;
        let whole = format!(in heap; "{ONE}{text}")?;
        says_as(rt, heap, input.as_slice(), whole.as_str(), why)
    }

    #[test]
    fn no_walk(rt: HostRuntime) -> Result<(), Fail> {
        goes_on(
            &rt,
            rt.alloc(),
            &[0, 0],
            "steps: 0\nend\n  0 2 5\n  1 3 4\n",
        )?;
        let certificate = [0u8, 0, 0, 1, 9, 9, 9, 0, 1, 9, 9, 9, 9, 9, 9, 9, 0, 0, 2, 7];
        goes_on_as(
            &rt,
            rt.alloc(),
            &certificate,
            "steps: 0\nend\n  0 2 5\n  1 3 4\n",
            "the second walk and the rewritings are not judged, nor what follows the values",
        )
    }

    #[test]
    fn each_step(rt: HostRuntime) -> Result<(), Fail> {
        let heap = rt.alloc();
        goes_on(
            &rt,
            heap,
            &[0, 1, 0, 2, 0],
            "steps: 1\n  0: L 2 makes 0 4 3 and 1 5 2\nend\n  0 4 3\n  1 5 2\n",
        )?;
        goes_on(
            &rt,
            heap,
            &[0, 1, 1, 2, 0],
            "steps: 1\n  0: R 2 makes 0 5 3 and 1 4 2\nend\n  0 5 3\n  1 4 2\n",
        )?;
        goes_on(
            &rt,
            heap,
            &[0, 1, 2, 2, 0],
            "steps: 1\n  0: T 2 exchanges 4 and 5\nend\n  0 2 4\n  1 3 5\n",
        )?;
        goes_on(
            &rt,
            heap,
            &[0, 1, 3, 0, 2],
            "steps: 1\n  0: S 0 2 exchanges 0 and 4, 1 and 5\nend\n  0 5 3\n  1 4 2\n",
        )
    }

    #[test]
    fn a_surface_that_is_refused(rt: HostRuntime) -> Result<(), Fail> {
        let heap = rt.alloc();
        says(&rt, heap, &[], "REFUSED 1 1 0\n")?;
        says_as(&rt, heap, &[0], "REFUSED 1 1 1\n", "a count cut in half")?;
        says_as(&rt, heap, &[0, 1], "REFUSED 1 1 2\n", "no mark")?;
        says(&rt, heap, &[0, 0, 0x54], "REFUSED 4 1 0\n")?;
        says(&rt, heap, &[0, 22, 0x54], "REFUSED 4 1 0\n")?;
        says_as(&rt, heap, &[1, 1, 0x54], "REFUSED 4 1 0\n", "257 punctures")?;
        says(&rt, heap, &[0, 1, 0x55], "REFUSED 3 1 2\n")?;
        says_as(
            &rt,
            heap,
            &[0, 0, 0x55],
            "REFUSED 3 1 2\n",
            "the mark is judged before the count",
        )
    }

    #[test]
    fn a_walk_that_is_refused(rt: HostRuntime) -> Result<(), Fail> {
        let heap = rt.alloc();
        goes_on(&rt, heap, &[], "REFUSED 1 1 3\n")?;
        goes_on(&rt, heap, &[0], "REFUSED 1 1 4\n")?;
        goes_on_as(&rt, heap, &[1, 1], "REFUSED 4 1 3\n", "257 steps")?;
        goes_on_as(
            &rt,
            heap,
            &[0, 1, 9, 9],
            "steps: 1\nREFUSED 1 1 7\n",
            "a record cut short, whatever its first bytes are",
        )?;
        goes_on(&rt, heap, &[0, 1, 4, 0, 0], "steps: 1\nREFUSED 5 3 0\n")?;
        goes_on(&rt, heap, &[0, 1, 255, 3, 1], "steps: 1\nREFUSED 5 3 0\n")?;
        goes_on_as(
            &rt,
            heap,
            &[0, 1, 0, 0, 1],
            "steps: 1\nREFUSED 5 3 0\n",
            "the unused byte is not 0",
        )?;
        goes_on_as(
            &rt,
            heap,
            &[0, 1, 2, 3, 1],
            "steps: 1\nREFUSED 5 3 0\n",
            "5 before 6",
        )
    }

    #[test]
    fn names_that_are_refused(rt: HostRuntime) -> Result<(), Fail> {
        let heap = rt.alloc();
        goes_on(&rt, heap, &[0, 1, 0, 3, 0], "steps: 1\nREFUSED 6 3 0\n")?;
        goes_on(&rt, heap, &[0, 1, 1, 255, 0], "steps: 1\nREFUSED 6 3 0\n")?;
        goes_on(&rt, heap, &[0, 1, 2, 3, 0], "steps: 1\nREFUSED 6 3 0\n")?;
        goes_on(&rt, heap, &[0, 1, 3, 0, 3], "steps: 1\nREFUSED 6 3 0\n")?;
        goes_on_as(
            &rt,
            heap,
            &[0, 1, 3, 3, 2],
            "steps: 1\nREFUSED 6 3 0\n",
            "6 before 7",
        )?;
        goes_on(&rt, heap, &[0, 1, 3, 1, 1], "steps: 1\nREFUSED 7 3 0\n")?;
        goes_on(&rt, heap, &[0, 1, 3, 2, 1], "steps: 1\nREFUSED 7 3 0\n")?;
        goes_on_as(
            &rt,
            heap,
            &[0, 2, 2, 1, 0, 3, 2, 1],
            "steps: 2\n  0: T 1 exchanges 2 and 3\nREFUSED 7 3 1\n",
            "what comes before it is printed",
        )
    }

    // On two punctures L(1) L(0) L(2) L(3) leads to a triangulation in which both darts of edge 5 lie in one triangle.
    #[test]
    fn an_edge_that_is_not_flippable(rt: HostRuntime) -> Result<(), Fail> {
        let input = [
            0u8, 2, 0x54, 0, 5, 0, 1, 0, 0, 0, 0, 0, 2, 0, 0, 3, 0, 0, 5, 0,
        ];
        let mut text = String::from_str(
            rt.alloc(),
            "torus, m = 2, E = 6\nstart\n  0 8 5\n  1 3 4\n  2 11 6\n  7 9 10\nsteps: 5\n",
        )?;
        text.push_str("  0: L 1 makes 1 11 3 and 2 6 4\n  1: L 0 makes 0 5 11 and 1 3 8\n")?;
        text.push_str(
            "  2: L 2 makes 0 2 5 and 4 6 11\n  3: L 3 makes 4 9 6 and 7 10 11\nREFUSED 10 3 4\n",
        )?;
        says(&rt, rt.alloc(), &input, text.as_str())
    }

    // Fractions 1, 1, 1 under L(2) L(0).
    #[test]
    fn fractions(rt: HostRuntime) -> Result<(), Fail> {
        let mut walk = [0u8, 2, 0, 2, 0, 0, 0, 0, 0, 0, 0, 0, 0, 3, 2].to_vec(rt.alloc())?;
        for _ in 0..3 {
            walk.extend_from_slice(&[0, 0, 0, 1, 0, 0, 0, 1])?;
        }
        let mut text = String::from_str(
            rt.alloc(),
            "fractions\n  0 1.000\n  1 1.000\n  2 1.000\nsteps: 2\n",
        )?;
        text.push_str(
            "  0: L 2 makes 0 4 3 and 1 5 2, value 2.000\n  1: L 0 makes 0 3 5 and 1 2 4, value 5.000\n",
        )?;
        text.push_str("end\n  0 3 5\n  1 2 4\nfractions\n  0 5.000\n  1 1.000\n  2 2.000\n")?;
        goes_on(&rt, rt.alloc(), walk.as_slice(), text.as_str())
    }

    // Weights 1, 2, 3 under L(2) S(0, 2), and the negative of the largest.
    #[test]
    fn weights(rt: HostRuntime) -> Result<(), Fail> {
        let mut walk = [0u8, 2, 0, 2, 0, 3, 0, 2, 0, 0, 0, 0, 0, 3, 1].to_vec(rt.alloc())?;
        for weight in 1..4u8 {
            walk.extend_from_slice(&[0, 0, 0, 0, 0, 0, 0, weight])?;
        }
        let mut text = String::from_str(rt.alloc(), "weights\n  0 1\n  1 2\n  2 3\nsteps: 2\n")?;
        text.push_str(
            "  0: L 2 makes 0 4 3 and 1 5 2, value 1\n  1: S 0 2 exchanges 0 and 4, 1 and 5\n",
        )?;
        text.push_str("end\n  0 3 4\n  1 2 5\nweights\n  0 1\n  1 2\n  2 1\n")?;
        goes_on(&rt, rt.alloc(), walk.as_slice(), text.as_str())
    }

    // The first product of 2147483647 with itself has no stored number.
    #[test]
    fn values_that_are_refused(rt: HostRuntime) -> Result<(), Fail> {
        let heap = rt.alloc();
        let large = [
            0u8, 1, 0, 2, 0, 0, 0, 0, 0, 0, 3, 2, 127, 255, 255, 255, 0, 0, 0, 1, 0, 0, 0, 1, 0, 0,
            0, 1, 0, 0, 0, 1, 0, 0, 0, 1,
        ];
        goes_on(
            &rt,
            heap,
            &large,
            "fractions\n  0 2147483647.000\n  1 1.000\n  2 1.000\nsteps: 1\nREFUSED 18 6 0\n",
        )?;
        goes_on_as(
            &rt,
            heap,
            &[0, 0, 0, 0, 0, 0, 0, 2, 1],
            "REFUSED 19 6 2\n",
            "neither 0 nor 3 values",
        )?;
        goes_on_as(
            &rt,
            heap,
            &[0, 0, 0, 0, 0, 0, 0, 2, 3],
            "REFUSED 3 1 11\n",
            "the mark is judged before the count",
        )?;
        goes_on_as(
            &rt,
            heap,
            &[0, 0, 0, 0, 0, 0, 0, 3, 2, 0, 0, 0, 2, 0, 0, 0, 4],
            "REFUSED 17 6 0\n",
            "2/4 is no number",
        )?;
        goes_on(
            &rt,
            heap,
            &[0, 0, 0, 0, 0, 0, 0, 3, 2, 0, 0, 0, 2, 0, 0, 0],
            "REFUSED 1 1 19\n",
        )?;
        goes_on_as(
            &rt,
            heap,
            &[0, 0, 0],
            "REFUSED 1 1 6\n",
            "what follows the walk is no whole section",
        )
    }

    #[test]
    fn polygons(rt: HostRuntime) -> Result<(), Fail> {
        let heap = rt.alloc();
        says(
            &rt,
            heap,
            &[0, 3, 0x50, 0, 0],
            "polygon, n = 3, E = 3\nstart\n  0 2 4\nsteps: 0\nend\n  0 2 4\n",
        )?;
        let mut text = String::from_str(
            heap,
            "polygon, n = 4, E = 5\nstart\n  0 2 9\n  4 6 8\nsteps: 1\n",
        )?;
        text.push_str("  0: L 4 makes 0 8 6 and 2 4 9\nend\n  0 8 6\n  2 4 9\n")?;
        says(&rt, heap, &[0, 4, 0x50, 0, 2, 0, 1, 0, 4, 0], text.as_str())?;
        says_as(
            &rt,
            heap,
            &[0, 4, 0x50, 0, 2, 0, 1, 0, 0, 0],
            "polygon, n = 4, E = 5\nstart\n  0 2 9\n  4 6 8\nsteps: 1\nREFUSED 10 3 0\n",
            "a side",
        )
    }

    #[test]
    fn polygons_that_are_refused(rt: HostRuntime) -> Result<(), Fail> {
        let heap = rt.alloc();
        says(&rt, heap, &[0, 2, 0x50], "REFUSED 4 1 0\n")?;
        says(&rt, heap, &[0, 34, 0x50], "REFUSED 4 1 0\n")?;
        says(&rt, heap, &[0, 5, 0x50, 0, 2, 2], "REFUSED 1 1 6\n")?;
        says_as(
            &rt,
            heap,
            &[0, 5, 0x50, 0, 4, 2],
            "REFUSED 8 2 0\n",
            "a diagonal's fault comes before the want of the next",
        )?;
        says(&rt, heap, &[0, 5, 0x50, 0, 2, 2, 0], "REFUSED 8 2 1\n")?;
        says(&rt, heap, &[0, 5, 0x50, 0, 2, 1, 3], "REFUSED 9 2 1\n")?;
        says(&rt, heap, &[0, 5, 0x50, 0, 2, 0, 2], "REFUSED 9 2 1\n")
    }
}
