// The nodes that a search has visited: their entries of back are not 0, and the queue lists them.
ghost use Rattle.search_graph.specs.Inner.Visits.{Cleared, Visited};

// No node is visited.
pub fn clear(back: &mut [u32])
    ensures { Cleared back.new 0 }
{
    back.fill(0);
}

// Undoes a search that visited so many nodes: none is visited any more.
pub fn undo(queue: &[u32], back: &mut [u32], count: usize)
    requires { Visited queue.now back.old count }
    ensures { Cleared back.new 0 }
{
    for v in &queue[..count] {
        back[*v as usize] = 0;
    }
}
